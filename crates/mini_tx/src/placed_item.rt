use crate::item::Item;
use sfs_base::Seq;

/// The items of one memory node, with their places.
pub type Placed = Seq<PlacedItem>;

/// An item, and its place among the items of its minitransaction.
#[derive(Debug, Clone, PartialEq, Eq, Drop)]
pub struct PlacedItem {
    pub place: u32,
    pub item: Item,
}
