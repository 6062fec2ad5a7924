// Why a request gets no value, and how that is written.
use calendar::Fault;
use std::alloc::AllocError;
use std::fmt;

#[derive(Clone, Copy)]
pub(crate) enum Refusal {
    // The line is no request.
    BadRequest,
    // A layer refused it.
    Found(Fault),
    // There is no memory to read it.
    NoMemory(AllocError),
}

// A fault by its numbers, with its row if it has one.
fn show_fault<W: fmt::Write>(fault: &Fault, f: &mut fmt::Formatter<W>) -> fmt::Result {
    let cause = fault.cause.number();
    let layer = fault.layer.number();
    match fault.row {
        None => write!(f, "fault {cause} {layer}"),
        Some(row) => write!(f, "fault {cause} {layer} row {row}"),
    }
}

impl fmt::Display for Refusal {
    fn fmt<W: fmt::Write>(&self, f: &mut fmt::Formatter<W>) -> fmt::Result {
        match self {
            Refusal::BadRequest => f.write_str("bad request"),
            Refusal::Found(fault) => show_fault(fault, f),
            Refusal::NoMemory(e) => write!(f, "{e}"),
        }
    }
}

impl From<Fault> for Refusal {
    fn from(fault: Fault) -> Refusal {
        Refusal::Found(fault)
    }
}

impl From<AllocError> for Refusal {
    fn from(e: AllocError) -> Refusal {
        Refusal::NoMemory(e)
    }
}
