// The image as it is lent to a call: any bytes of any length. What every call looks at before it trusts anything there: the
// length, and the head; one page of it; and the fresh image that a format leaves. Document 01, "The page".
#![tactic(auto)]

pub mod fresh;
pub mod heads;
pub mod lengths;
pub mod pages;
