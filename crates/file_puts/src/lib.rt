//! What a final minitransaction has to put into images so that they show the files of its edits.
//!
//! There is no code here. The function has its law as its contract: where the record of each file that is changed, made or
//! freed is put, and each of its parts is put or stays with the same content, the images show the tree after the edits.
#![tactic(auto)]

mod laws;

pub use laws::edit_puts_are_shown;
