// The two small numbers of the model. They are types of their own, so that no count meets a serial.

// A number of tokens.
#[derive(Clone, Copy, PartialEq, Eq)]
pub struct Count(pub u8);

// A token serial number, 0 to 3.
#[derive(Clone, Copy, PartialEq, Eq)]
pub struct Serial(pub u8);
