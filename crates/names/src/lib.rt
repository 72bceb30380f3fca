// Layer 1 of the transaction store: bytes, names, values, dates, numbers, entities, keys and their order.
#![tactic(auto)]

pub mod bytes; // stretches of bytes: order, equality, copying, clearing
pub mod class; // the class of a byte
pub mod date; // dates, and days alone
pub mod key; // keys, held and packed
pub mod name; // names, long names, values
pub mod number; // integers and floats as texts
pub mod text; // entities of written values
