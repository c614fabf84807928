// A booking as enter and withdraw take it. Its words in the definitions are those of specs/Bookings.

// Which of the two calls it is: "an entry adds (v, 1), a withdrawal (−v, −1)".
#[derive(Clone, Copy, Debug, PartialEq, Eq)]
pub enum Side {
    Entering,
    Withdrawing,
}

// Value v on [s, e), entered or withdrawn.
#[derive(Clone, Copy, Debug, PartialEq, Eq)]
pub struct Booking {
    pub side: Side,
    pub value: i64,
    pub start: u32,
    pub end: u32,
}
