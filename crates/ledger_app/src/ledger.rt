ghost use Rattle.std.specs.Prelude.{◌≡◌, ◌≤◌, [], length, slice_index, codes, if◌then◌else◌, ◌==◌};
ghost use Rattle.event_reader.specs.Forms.{said_in};
ghost use Rattle.event_reader.specs.Reader.{GivesEvent};
ghost use Rattle.event_reader.specs.Versions.{greatest_of};
ghost use Rattle.ledger_app.specs.Ledger.{deposits, transfers, most_floors, most_paid, payout, payouts, ledger_event};

use crate::draws::{write_deposit, write_transfer};
use event_reader::{
    Cause, Draws, EventApp, Form, LineFault, MakesInput, Range, TIMES, Version, Words,
    are_distinct, has_key, key_of, keys_of,
};
use morph_base::{EVENT_OPS, EventOps, Func, Key, Op};
use morph_io::LineBuf;
use std::alloc::Global;

/// The number of the table of accounts.
pub const ACCOUNTS: u8 = 0;

/// The number of the table of assets.
pub const ASSETS: u8 = 1;

/// The most accounts that one payout names: with the one that pays, as many as an event has operations.
const MOST_PAID: usize = EVENT_OPS - 1;

/// The application Streaming Ledger.
#[derive(Clone, Copy, Debug, PartialEq, Eq)]
pub struct Ledger;

/// Reads the words of a deposit.
fn deposit(
    words: &Words<'_>,
    size: u32,
    version: Version,
    ops: &mut EventOps,
) -> Result<u64, LineFault>
    requires { ops.old ≡ [] }
    ensures { GivesEvent (said_in (deposits version size) words.now) result ops.new }
{
    let (ids, amounts) = (Range::ids(size), Range::amounts(version));
    let numbers = words.read(&Form::new(b'D', &[TIMES, ids, ids, amounts, amounts]))?;
    let [ts, account, asset, a, b] = numbers.first();
    ops.add(version.op(Func::Add, key_of(ACCOUNTS, account), &[], a));
    ops.add(version.op(Func::Add, key_of(ASSETS, asset), &[], b));
    Ok(ts)
}

/// How many numbers a transfer may have behind those that every transfer has: in version 2 one, which says what has to
/// stay on the account.
fn most_floors(version: Version) -> usize
    ensures { result ≡ most_floors version }
{
    match version {
        Version::One => 0,
        Version::Two => 1,
    }
}

/// The first of these numbers, or 0 if there is none.
fn first_or_none(numbers: &[u64]) -> u64
    ensures { result ≡ slice_index numbers.now 0 }
{
    match numbers {
        [] => 0,
        [first, ..] => *first,
    }
}

/// Reads the words of a transfer.
fn transfer(
    words: &Words<'_>,
    size: u32,
    version: Version,
    ops: &mut EventOps,
) -> Result<u64, LineFault>
    requires { ops.old ≡ [] }
    ensures { GivesEvent (said_in (transfers version size) words.now) result ops.new }
{
    let (ids, amounts) = (Range::ids(size), Range::amounts(version));
    let places = [TIMES, ids, ids, ids, ids, amounts, amounts];
    let form = Form::new(b'X', &places).with_more(amounts, 0, most_floors(version));
    let numbers = words.read(&form)?;
    let [ts, src, dst, asrc, adst, a, b] = numbers.first();
    let floor = first_or_none(numbers.rest());
    if src == dst || asrc == adst {
        return Err(LineFault::Refused(Cause::Same));
    }
    let (src, dst) = (key_of(ACCOUNTS, src), key_of(ACCOUNTS, dst));
    let (asrc, adst) = (key_of(ASSETS, asrc), key_of(ASSETS, adst));
    let high = version.greatest();
    ops.add(Op::new(Func::Sub, src, &[], a).limited(floor, high));
    ops.add(version.op(Func::Sub, asrc, &[], b));
    ops.add(Op::new(Func::MoveIn, dst, &[src], a).limited(floor, high));
    ops.add(version.op(Func::MoveIn, adst, &[asrc], b));
    Ok(ts)
}

/// Makes the event that takes an amount from an account for each of some others, and moves it to them.
fn pay_out(
    version: Version,
    ts: u64,
    a: u64,
    src: Key,
    accounts: &[Key],
    ops: &mut EventOps,
) -> Result<u64, LineFault>
    requires few { length accounts.now ≤ most_paid }
    requires small { a ≤ greatest_of version }
    requires none { ops.old ≡ [] }
    ensures { GivesEvent (payout version ts a src accounts.now) result ops.new }
{
    let whole = accounts.len() as u64 * a;
    if whole > version.greatest() {
        return Err(LineFault::Refused(Cause::Range));
    }
    if has_key(accounts, src) || !are_distinct(accounts) {
        return Err(LineFault::Refused(Cause::Same));
    }
    ops.add(version.op(Func::Sub, src, &[], whole));
    for account in accounts {
        ops.add(version.op(Func::MoveIn, *account, &[src], a));
    }
    Ok(ts)
}

/// Reads the words of a payout.
fn pay(words: &Words<'_>, size: u32, version: Version, ops: &mut EventOps) -> Result<u64, LineFault>
    requires { ops.old ≡ [] }
    ensures { GivesEvent (said_in (payouts version size) words.now) result ops.new }
{
    let ids = Range::ids(size);
    let places = [TIMES, ids, Range::amounts(version)];
    let form = Form::new(b'M', &places).with_more(ids, 1, MOST_PAID);
    let numbers = words.read(&form)?;
    let [ts, src, a] = numbers.first();
    let others = numbers.rest();
    let accounts: [Key; MOST_PAID] = keys_of(ACCOUNTS, others);
    let src = key_of(ACCOUNTS, src);
    pay_out(version, ts, a, src, &accounts[..others.len()], ops)
}

impl EventApp for Ledger {
    ghost use Rattle.ledger_app.specs.LedgerLaws.{ledger_is_valid, ledger_causes};

    ghost table_count = { λ _. 2 };

    ghost name_of = { λ _ table. if table == 0 then codes "acct" else codes "asset" };

    ghost event_of = { λ _ size version words. ledger_event size version words };

    ghost gives_valid = { λ _ size version words e. ledger_is_valid size version words e };

    ghost causes = { λ _ size version words cause. ledger_causes size version words cause };

    fn tables(&self) -> u8 {
        2
    }

    fn table_name(&self, table: u8) -> &'static str {
        if table == ACCOUNTS { "acct" } else { "asset" }
    }

    fn read_event(
        &self,
        _alloc: Global,
        words: &Words<'_>,
        size: u32,
        version: Version,
        ops: &mut EventOps,
    ) -> Result<u64, LineFault> {
        match (words.letter(), version) {
            (Some(b'D'), _) => deposit(words, size, version, ops),
            (Some(b'X'), _) => transfer(words, size, version, ops),
            (Some(b'M'), Version::Two) => pay(words, size, version, ops),
            _ => Err(LineFault::Refused(Cause::Form)),
        }
    }
}

impl MakesInput for Ledger {
    ghost use Rattle.ledger_app.specs.LedgerDraws.{ledger_drawn};
    ghost use Rattle.ledger_app.specs.DrawLaws.{ledger_generates};

    ghost generated = { λ _ size i state. ledger_drawn size i state };

    ghost generates = { λ _ size i state some few start last. ledger_generates size i state some
        few start last };

    fn generate(&self, draws: &mut Draws, i: u64, size: u32, line: &mut LineBuf) {
        let choice = draws.draw(4);
        if choice < 2 || size < 2 {
            write_deposit(draws, i, u64::from(size), line);
        } else {
            write_transfer(draws, i, u64::from(size), line);
        }
    }
}
