//! Which version of a data source is visible at each instant, over what nodes serve. The size of a
//! segment is forgotten here: the inventory keeps it.
#![tactic(auto)]

mod edit;
mod fault;
mod holding;
mod laws;
mod lookup;
mod overlay;
mod overshadowed;
mod piece;
mod skyline;
mod sweep;
mod timeline;
mod transaction;
mod turn;
mod undo;
mod visible_pieces;

pub use fault::TimelineFault;
pub use holding::Holding;
pub use laws::{
    cut_is_the_pieces_within, edits_are_undone, one_holding_shows_one, one_is_visible,
    one_list_of_pieces,
};
pub use piece::{Partitions, Piece};
pub use timeline::Timeline;
pub use transaction::Transaction;
