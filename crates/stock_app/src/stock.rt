ghost use Rattle.std.specs.Prelude.{◌≡◌, ℕ, ◌^◌, ◌<◌, ◌≤◌, [], All, length};
ghost use Rattle.event_reader.specs.Forms.{said_in};
ghost use Rattle.event_reader.specs.Reader.{GivesEvent};
ghost use Rattle.event_reader.specs.Versions.{greatest_of};
ghost use Rattle.stock_app.specs.Stock.{IsItemNumber, IsPriced, limit_check, order, ordered};
ghost use Rattle.stock_app.specs.Stock.{orders, payments, restocks};

use crate::item::{Item, are_offered, cost_of, items_of, keys_of};
use event_reader::{
    Cause, EventApp, Form, LineFault, Range, TIMES, Version, Words, are_distinct, key_of,
};
use morph_base::{EventOps, Func, Op};
use std::alloc::Global;

/// The number of the table of stocks.
pub const ITEMS: u8 = 0;

/// The number of the table of bills.
pub const BILLS: u8 = 1;

/// The number of the table of the bills before the customers' last orders.
pub const BEFORE: u8 = 2;

/// The range of each number behind an order's limit.
const ITEM_NUMBERS: Range = Range {
    least: 0,
    greatest: 1_000_000,
};

/// The application of a shop.
#[derive(Clone, Copy, Debug, PartialEq, Eq)]
pub struct Stock;

/// Reads the words of a line that adds to a stock.
fn restock(
    words: &Words<'_>,
    size: u32,
    version: Version,
    ops: &mut EventOps,
) -> Result<u64, LineFault>
    requires { ops.old ≡ [] }
    ensures { GivesEvent (said_in (restocks version size) words.now) result ops.new }
{
    let places = [TIMES, Range::ids(size), Range::amounts(version)];
    let numbers = words.read(&Form::new(b'R', &places))?;
    let [ts, item, quantity] = numbers.first();
    ops.add(version.op(Func::Add, key_of(ITEMS, item), &[], quantity));
    Ok(ts)
}

/// Reads the words of a line that pays a bill.
fn pay(words: &Words<'_>, size: u32, version: Version, ops: &mut EventOps) -> Result<u64, LineFault>
    requires { ops.old ≡ [] }
    ensures { GivesEvent (said_in (payments version size) words.now) result ops.new }
{
    let places = [TIMES, Range::ids(size), Range::amounts(version)];
    let numbers = words.read(&Form::new(b'B', &places))?;
    let [ts, customer, amount] = numbers.first();
    ops.add(version.op(Func::Sub, key_of(BILLS, customer), &[], amount));
    Ok(ts)
}

/// The operation that compares the bill before an order with what the limit leaves beside the cost.
fn limit_check(version: Version, customer: u64, limit: u64, cost: u64) -> Op
    requires { customer < 2 ^ 32 }
    ensures { result ≡ limit_check version customer limit cost }
{
    let (bill, before) = (key_of(BILLS, customer), key_of(BEFORE, customer));
    if limit < cost {
        let greatest = version.greatest();
        return Op::new(Func::Sub, before, &[], greatest).limited(greatest, greatest);
    }
    version.op(Func::Sum, before, &[bill], limit - cost)
}

/// The operations of an order.
fn order_ops(version: Version, customer: u64, limit: u64, items: &[Item], ops: &mut EventOps)
    requires none { ops.old ≡ [] }
    requires customer { customer < 2 ^ 32 }
    requires few { length items.now ≤ 5 }
    requires ids { All (λ item. item.id < 2 ^ 32) items.now }
    requires priced { All IsPriced items.now }
    ensures { (ts : ℕ) → record { ts = ts; ops = ops.new } ≡ order version ts customer limit items.now }
{
    let cost = cost_of(items);
    ops.add(limit_check(version, customer, limit, cost));
    ops.add(version.op(Func::Add, key_of(BILLS, customer), &[], cost));
    for item in items {
        ops.add(item.taking(version));
    }
}

/// The event of the numbers behind an order's limit, three for each item.
fn order_of(
    alloc: Global,
    version: Version,
    size: u32,
    ts: u64,
    customer: u64,
    limit: u64,
    numbers: &[u64],
    ops: &mut EventOps,
) -> Result<u64, LineFault>
    requires none { ops.old ≡ [] }
    requires customer { customer < 2 ^ 32 }
    requires few { length numbers.now ≤ 15 }
    requires small { All IsItemNumber numbers.now }
    ensures { GivesEvent (ordered version size ts customer limit numbers.now) result ops.new }
{
    if numbers.len() % 3 != 0 {
        return Err(LineFault::Refused(Cause::Form));
    }
    let items = items_of(alloc, numbers)?;
    if !are_offered(items.as_slice(), size) {
        return Err(LineFault::Refused(Cause::Range));
    }
    let keys = keys_of(alloc, items.as_slice())?;
    if !are_distinct(keys.as_slice()) {
        return Err(LineFault::Refused(Cause::Same));
    }
    order_ops(version, customer, limit, items.as_slice(), ops);
    Ok(ts)
}

/// Reads the words of an order.
fn order(
    alloc: Global,
    words: &Words<'_>,
    size: u32,
    version: Version,
    ops: &mut EventOps,
) -> Result<u64, LineFault>
    requires { ops.old ≡ [] }
    ensures { GivesEvent (said_in (orders version size) words.now) result ops.new }
{
    let places = [TIMES, Range::ids(size), Range::amounts(version)];
    let form = Form::new(b'O', &places).with_more(ITEM_NUMBERS, 3, 15);
    let numbers = words.read(&form)?;
    let [ts, customer, limit] = numbers.first();
    order_of(
        alloc,
        version,
        size,
        ts,
        customer,
        limit,
        numbers.rest(),
        ops,
    )
}

impl EventApp for Stock {
    ghost use Rattle.stock_app.specs.Stock.{table_name, stock_event};
    ghost use Rattle.stock_app.specs.StockLaws.{stock_is_valid, stock_causes};

    ghost table_count = { λ _. 3 };

    ghost name_of = { λ _ table. table_name table };

    ghost event_of = { λ _ size version words. stock_event size version words };

    ghost gives_valid = { λ _ size version words e. stock_is_valid size version words e };

    ghost causes = { λ _ size version words cause. stock_causes size version words cause };

    fn tables(&self) -> u8 {
        3
    }

    fn table_name(&self, table: u8) -> &'static str {
        match table {
            ITEMS => "item",
            BILLS => "bill",
            _ => "before",
        }
    }

    fn read_event(
        &self,
        alloc: Global,
        words: &Words<'_>,
        size: u32,
        version: Version,
        ops: &mut EventOps,
    ) -> Result<u64, LineFault> {
        match words.letter() {
            Some(b'R') => restock(words, size, version, ops),
            Some(b'B') => pay(words, size, version, ops),
            Some(b'O') => order(alloc, words, size, version, ops),
            _ => Err(LineFault::Refused(Cause::Form)),
        }
    }
}
