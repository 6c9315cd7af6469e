// Why a value that is offered to an entry may not stand.
#[derive(Clone, Copy)]
pub enum Fault {
    NotFinite,
    Above,
    Below,
    ChainUp,
    ChainDown,
}
