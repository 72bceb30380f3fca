// Layer 3 of the transaction store: the file reader and Import. Its public functions take the tables, the file and the buffers as lent slices, with what holds of
// them as clauses: a struct with ghost fields would be a narrower type than what they were promised for. Of the private ones those of attributes.rt take such a struct.
#![tactic(auto)]

pub mod scan; // bytes passed by a test
pub mod tag; // the pieces of a tag
pub mod element; // the element table
pub mod attributes; // the attributes of a tag
pub mod cursor; // the reading place
pub mod body; // the body of a typed item, and its closing tag
pub mod duplicates; // attributes that stand twice, among many
pub mod values; // an opening tag: its element, its attributes, the forms of their values
pub mod odm; // the ODM tag
pub mod open_elements; // the open elements and their words
pub mod entity; // the bytes of an entity's change
pub mod tell; // what a tag says
pub mod act; // what the store does with it
pub mod import; // Import
