// What is called in each turn.

/// What a key lock calls inside each turn, while the cell is taken out. A test can hold a thread there.
pub trait Gate {
    /// The column is the number of the seat whose turn it is.
    fn pass(&self, column: u32, replica: u32, key: u32);
}

/// It holds nobody.
#[derive(Clone, Copy)]
pub struct NoGate;

impl Gate for NoGate {
    fn pass(&self, _column: u32, _replica: u32, _key: u32) {}
}
