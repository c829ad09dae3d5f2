ghost use Rattle.std.specs.Prelude.{◌≡◌, ◌^◌, ◌<◌, ◌≤◌, All, IfOk, map, sum_by, length};
ghost use Rattle.std.specs.List.{list_all};
ghost use Rattle.stock_app.specs.Stock.{IsPriced, cost_of, is_offered, items_of, stock_of, taking};

use crate::stock::ITEMS;
use event_reader::{Version, key_of};
use morph_base::{Func, Key, List, Op, OutOfMemory};
use std::alloc::Global;

/// The greatest price of an item.
const MOST_PRICE: u64 = 100_000;

/// An item of an order.
#[derive(Clone, Copy, Debug, PartialEq, Eq)]
pub struct Item {
    /// Its number, below `size`.
    pub id: u64,
    /// How many of it are ordered, at most 1,000,000.
    pub quantity: u64,
    /// The price of one, at most 100,000.
    pub price: u64,
}

impl Item {
    /// Whether the shop has the item, and its price is one that the shop asks.
    pub(crate) fn is_offered(&self, size: u32) -> bool
        ensures { result ≡ is_offered size self.now }
    {
        self.id < u64::from(size) && self.price <= MOST_PRICE
    }

    /// The key of its stock.
    pub(crate) fn key(&self) -> Key
        requires { self.now.id < 2 ^ 32 }
        ensures { result ≡ stock_of self.now }
    {
        key_of(ITEMS, self.id)
    }

    /// The operation that takes it from its stock.
    pub(crate) fn taking(&self, version: Version) -> Op
        requires { self.now.id < 2 ^ 32 }
        ensures { result ≡ taking version self.now }
    {
        version.op(Func::Sub, self.key(), &[], self.quantity)
    }
}

/// The items that numbers say, three numbers each; numbers that are left over are no item.
pub(crate) fn items_of(alloc: Global, numbers: &[u64]) -> Result<List<Item>, OutOfMemory>
    ensures { IfOk result (λ items. items.items ≡ items_of numbers.now) }
{
    let mut items = List::new(alloc);
    let mut rest = numbers;
    while let [id, quantity, price, more @ ..] = rest {
        let item = Item {
            id: *id,
            quantity: *quantity,
            price: *price,
        };
        items.push(item)?;
        rest = more;
    }
    Ok(items)
}

/// Whether the shop has all of some items, at these prices.
pub(crate) fn are_offered(items: &[Item], size: u32) -> bool
    ensures { result ≡ list_all (is_offered size) items.now }
{
    items.iter().all(|item| item.is_offered(size))
}

/// What some items cost together.
pub(crate) fn cost_of(items: &[Item]) -> u64
    requires few { length items.now ≤ 5 }
    requires priced { All IsPriced items.now }
    ensures { result ≡ sum_by cost_of items.now }
{
    let mut cost = 0;
    for item in items {
        cost += item.quantity * item.price;
    }
    cost
}

/// The keys of the stocks of some items.
pub(crate) fn keys_of(alloc: Global, items: &[Item]) -> Result<List<Key>, OutOfMemory>
    requires { All (λ item. item.id < 2 ^ 32) items.now }
    ensures { IfOk result (λ keys. keys.items ≡ map stock_of items.now) }
{
    let mut keys = List::new(alloc);
    for item in items {
        keys.push(item.key())?;
    }
    Ok(keys)
}
