// Numbers as the blocks use them: INTEGER16 and its pattern, sums that cannot wrap, limits, the whole-number line, REAL32 to INTEGER16.
// specs/ has the words that all definitions choose by, proofs/ the laws of whole numbers that all proofs use.
#![tactic(auto)]

pub mod exact;
pub mod limits;
pub mod rounding;
pub mod signed;
pub mod whole_line;
