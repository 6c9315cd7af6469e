// The interlock alone: what the two coils are sent, of the core's commands and of what they were sent on the tick before.
ghost use Rattle.std.specs.Prelude.{◌≡◌};
ghost use Rattle.spool.specs.Interlock.{sent_1, sent_2, interlocked};

fn first_sent(commands: [i16; 4], sent: [i16; 2]) -> i16
    ensures { result ≡ sent_1 commands sent }
{
    let command = commands[0];
    if command <= 0 {
        return command;
    }
    if sent[1] != 0 {
        return 0;
    }
    command
}

// Where both ask and both were sent 0, it loses.
fn second_sent(commands: [i16; 4], sent: [i16; 2]) -> i16
    ensures { result ≡ sent_2 commands sent }
{
    let command = commands[1];
    if command <= 0 {
        return command;
    }
    if sent[0] != 0 {
        return 0;
    }
    if commands[0] <= 0 {
        return command;
    }
    if sent[1] == 0 {
        return 0;
    }
    command
}

pub fn interlock(commands: [i16; 4], sent: [i16; 2]) -> [i16; 2]
    ensures { result ≡ interlocked commands sent }
{
    [first_sent(commands, sent), second_sent(commands, sent)]
}
