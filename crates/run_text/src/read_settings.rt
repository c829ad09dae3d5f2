ghost use Rattle.std.specs.Prelude.{◌≡◌, map, None, IfSome};
ghost use Rattle.run_text.specs.Settings.{strategy_of, planning_of, input_of, read_input, made_input};
ghost use Rattle.run_text.specs.Settings.{is_alone, is_lazy, can_check, AreFewEvents, AreInRange};
ghost use Rattle.run_text.specs.Settings.{given_with, settings_of, is_input_given, settings_of_own};
ghost use Rattle.run_text.specs.NoSettings.{NoSettings};

use crate::choices::{
    App, Check, DEFAULT_AHEAD, DEFAULT_EVENTS, DEFAULT_SEED, DEFAULT_SIZE, DEFAULT_WORKERS,
    Generated, Planning, Settings,
};
use crate::names::Name;
use crate::values::{
    ABORTS, AHEAD, CHECKS, EVENTS, EXPLORES, PLANS, SEEDS, SIZES, SWITCHES, UNITS, WORKER_COUNTS,
    app_under, meaning_under, number_under,
};
use crate::words::{are_known, are_once, is_given};
use morph_base::{Abort, Explore, List, Strategy, Unit};

/// The strategy that the words give for all batches.
fn strategy_of(words: &[List<u8>]) -> Option<Strategy>
    ensures { result ≡ strategy_of (map (λ word. word.items) words.now) }
{
    let unit = meaning_under(words, Name::Unit, &UNITS, Unit::Op)?;
    let explore = meaning_under(words, Name::Explore, &EXPLORES, Explore::Strata)?;
    let abort = meaning_under(words, Name::Abort, &ABORTS, Abort::Lazy)?;
    Some(Strategy {
        unit,
        explore,
        abort,
    })
}

/// How the strategy of each batch is found. If the program chooses, the words give no part of a strategy.
fn planning_of(words: &[List<u8>]) -> Option<Planning>
    ensures { result ≡ planning_of (map (λ word. word.items) words.now) }
{
    if !meaning_under(words, Name::Plan, &PLANS, false)? {
        return Some(Planning::Fixed(strategy_of(words)?));
    }
    if is_given(words, Name::Unit)
        || is_given(words, Name::Explore)
        || is_given(words, Name::Abort)
    {
        return None;
    }
    Some(Planning::Auto)
}

/// An application, and the input that the program makes for it, if it makes one.
#[derive(Clone, Copy, Debug, PartialEq, Eq)]
struct Input {
    app: App,
    generated: Option<Generated>,
}

/// The application and the input: exactly one of `app` and `self` is given, and a seed and a number of events only with
/// `self`.
fn input_of(words: &[List<u8>]) -> Option<Input>
    ensures says { result ≡ input_of (map (λ word. word.items) words.now) }
    ensures fits { IfSome result (λ input. AreFewEvents input.generated) }
{
    match (app_under(words, Name::App)?, app_under(words, Name::Own)?) {
        (Some(app), None) => read_input(words, app),
        (None, Some(app)) => made_input(words, app),
        _ => None,
    }
}

/// An input that is read: no seed and no number of events is given.
fn read_input(words: &[List<u8>], app: App) -> Option<Input>
    ensures says { result ≡ read_input app (map (λ word. word.items) words.now) }
    ensures fits { IfSome result (λ input. AreFewEvents input.generated) }
{
    if is_given(words, Name::Seed) || is_given(words, Name::Events) {
        return None;
    }
    Some(Input {
        app,
        generated: None,
    })
}

/// An input that the program makes.
fn made_input(words: &[List<u8>], app: App) -> Option<Input>
    ensures says { result ≡ made_input app (map (λ word. word.items) words.now) }
    ensures fits { IfSome result (λ input. AreFewEvents input.generated) }
{
    let seed = number_under(words, Name::Seed, SEEDS, DEFAULT_SEED)?;
    let events = number_under(words, Name::Events, EVENTS, DEFAULT_EVENTS)?;
    Some(Input {
        app,
        generated: Some(Generated { seed, events }),
    })
}

/// Whether at most one is asked for of what may not go together: that batches are read ahead, that a viewer looks
/// beside each batch, and that journals are checked.
fn is_alone(ahead: u64, watch: bool, check: Check) -> bool
    ensures { result ≡ is_alone ahead watch check }
{
    u32::from(ahead > 0) + u32::from(watch) + u32::from(check.is_on()) <= 1
}

/// Whether the strategy of each batch is known beforehand, and has lazy abort.
fn is_lazy(planning: Planning) -> bool
    ensures { result ≡ is_lazy planning }
{
    match planning {
        Planning::Fixed(strategy) => strategy.abort == Abort::Lazy,
        Planning::Auto => false,
    }
}

/// Whether runs can be checked if that is asked for: by one worker, with lazy abort.
fn can_check(check: Check, workers: u64, planning: Planning) -> bool
    ensures { result ≡ can_check check workers planning }
{
    !check.is_on() || (workers == 1 && is_lazy(planning))
}

/// The settings that the words ask for with this input.
fn settings_with(words: &[List<u8>], input: Input) -> Option<Settings>
    requires { AreFewEvents input.generated }
    ensures asked { result ≡ given_with input (map (λ word. word.items) words.now) }
    ensures fits { IfSome result AreInRange }
    ensures input { IfSome result (λ s. s.generated ≡ input.generated) }
{
    let workers = number_under(words, Name::Workers, WORKER_COUNTS, DEFAULT_WORKERS)?;
    let size = number_under(words, Name::Size, SIZES, DEFAULT_SIZE)?;
    let planning = planning_of(words)?;
    let notes = meaning_under(words, Name::Notes, &SWITCHES, false)?;
    let ahead = number_under(words, Name::Ahead, AHEAD, DEFAULT_AHEAD)?;
    let watch = meaning_under(words, Name::Watch, &SWITCHES, false)?;
    let check = meaning_under(words, Name::Check, &CHECKS, Check::Off)?;
    if !is_alone(ahead, watch, check) || !can_check(check, workers, planning) {
        return None;
    }
    Some(Settings {
        app: input.app,
        workers: workers as u32,
        size: size as u32,
        planning,
        notes,
        generated: input.generated,
        ahead: ahead as u32,
        watch,
        check,
    })
}

/// The settings that the words ask for, or `None` if they ask for none.
///
/// They ask for none if a word is not `name=value` with one of the names, a name is given twice, a value is not one of
/// its name's, not exactly one of `app` and `self` is given, `seed` or `events` is given without `self`, or `unit`,
/// `explore` or `abort` is given with `plan=auto`. They also ask for none if more than one is asked for of batches that
/// are read ahead, watched balances and checked journals, or if journals are to be checked with several workers, eager
/// abort or `plan=auto`.
pub fn settings(words: &[List<u8>]) -> Option<Settings>
    ensures asked { result ≡ settings_of (map (λ word. word.items) words.now) }
    ensures none { (result ≡ None → NoSettings (map (λ word. word.items) words.now))
        × (NoSettings (map (λ word. word.items) words.now) → result ≡ None) }
    ensures fits { IfSome result AreInRange }
{
    if !are_known(words) || !are_once(words) {
        return None;
    }
    settings_with(words, input_of(words)?)
}

/// Whether the words say an application or an input that the program makes.
fn is_input_given(words: &[List<u8>]) -> bool
    ensures { result ≡ is_input_given (map (λ word. word.items) words.now) }
{
    is_given(words, Name::App)
        || is_given(words, Name::Own)
        || is_given(words, Name::Seed)
        || is_given(words, Name::Events)
}

/// The settings that the words ask for in a program of one application, which reads its input, or `None` if they ask
/// for none.
///
/// They are those of [`settings`] without the names `app`, `self`, `seed` and `events`. The field `app` says nothing.
pub fn own_settings(words: &[List<u8>]) -> Option<Settings>
    ensures asked { result ≡ settings_of_own (map (λ word. word.items) words.now) }
    ensures fits { IfSome result AreInRange }
    ensures read { IfSome result (λ s. s.generated ≡ None) }
{
    if !are_known(words) || !are_once(words) || is_input_given(words) {
        return None;
    }
    let input = Input {
        app: App::Ledger,
        generated: None,
    };
    settings_with(words, input)
}
