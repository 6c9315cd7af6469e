// What an entry is, in the words of the paper's table of names.
use super::rows::words_of;
use std::fmt;

// An entry by its index and sub.
#[derive(Clone, Copy)]
pub struct Name {
    pub index: u16,
    pub sub: u8,
}

// The key is the index with the sub as a fifth digit; the first row that has it counts. One text is plainer than an array of pairs, each with
// its quotes and commas.
const WORDS: &[u8] = b"2502? EC #, digits
2520? EC #, scaling 1
2522? EC #, scaling 2
6132? input #, digits
7120? input #, FV1
7121? input #, PV1
7122? input #, FV2
7123? input #, PV2
7148? input #, span start
7149? input #, span end
2110? input #, detect
2111? input #, hysteresis
2112? input #, delay
30z0? table ^, X source
30z1? table ^, X number
30z2? table ^, X digits
30z3? table ^, Y digits
30z41 table ^, axis type
30z4? table ^, response #
30z5? table ^, X #
30z6? table ^, Y #
4000? logic #, enable
4x011 logic @, table for A
4x012 logic @, table for B
4x013 logic @, table for C
4x021 logic @, operator for A
4x022 logic @, operator for B
4x023 logic @, operator for C
4x??1 logic @, condition ~ for &, source 1
4x??2 logic @, condition ~ for &, number 1
4x??3 logic @, condition ~ for &, source 2
4x??4 logic @, condition ~ for &, number 2
4x??5 logic @, condition ~ for &, comparison
4500? math #, enable
4521? math #, scaling 1 PV
4523? math #, scaling 2 PV
4532? math #, digits
4y00? math %, input #, source
4y01? math %, input #, number
4y02? math %, input #, digits
4y20? math %, input #, scaling 1
4y22? math %, input #, scaling 2
4y40? math %, input #, gain
4y50? math %, operator #
5010? constant #
6302? output #, digits
7320? output #, PV1
7322? output #, PV2
7321? output #, FV1
7323? output #, FV2
6340? output #, fault mode
7341? output #, fault FV
2300? output #, override FV
2330? output #, ramp up
2331? output #, ramp down
2340? output #, control source
2341? output #, control number
2350? output #, enable source
2351? output #, enable number
2352? output #, enable response
2360? output #, override source
2361? output #, override number
2362? output #, override response
";

impl Name {
    fn words(self) -> &'static [u8] {
        let [low, high] = self.index.to_le_bytes();
        let key = [high / 16, high % 16, low / 16, low % 16, self.sub % 16];
        words_of(WORDS, &key)
    }

    // A mark in the words stands for a part of the name: # the sub, @ ^ ~ the second, third and fourth digit of the index, & the third as a
    // letter, % the number of a math block, which is 5 less than the second.
    fn tell_mark<W: fmt::Write>(self, f: &mut fmt::Formatter<W>, mark: u8) -> fmt::Result {
        let [low, high] = self.index.to_le_bytes();
        let number = match mark {
            b'#' => self.sub,
            b'@' => high % 16,
            b'%' => (high % 16 + 11) % 16,
            b'^' => low / 16,
            b'~' => low % 16,
            b'&' => return f.write_char(char::from(b'@' + low / 16)),
            _ => return f.write_char(char::from(mark)),
        };
        write!(f, "{number}")
    }
}

impl fmt::Display for Name {
    fn fmt<W: fmt::Write>(&self, f: &mut fmt::Formatter<W>) -> fmt::Result {
        let Name { index, sub } = *self;
        write!(f, "{index:04x}h:{sub} ")?;
        for mark in self.words() {
            self.tell_mark(f, *mark)?;
        }
        Ok(())
    }
}
