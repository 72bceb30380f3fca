// Layer 2 of the transaction store: the image, the live index, the decision of the five words, Open and Withdraw. Numbers and bytes are lent slices, as document 01
// names them, in every public function; private ones take them in structs with ghost fields (`Image`, `Row`) where many share what holds of them.
#![tactic(auto)]

pub mod answer; // what a call answers
pub mod decide; // the decision of the five transaction words
pub mod index; // the live entities in key order: found, put in, taken out
pub mod layout; // whether an image is laid out as it should be
pub mod open; // Open
pub mod replay; // the changes of an image, applied one after another
pub mod rows; // what stands in the rows of an image
pub mod sizes; // the sizes of the buffers and their parts
pub mod standing; // what the series asks of the standing files
pub mod pending; // a file taken: its changes added, dropped again, or filed
pub mod valid; // whether an image is valid
pub mod withdraw; // Withdraw
pub mod write; // changes and files written into the buffers and cleared out of them
