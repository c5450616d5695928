//! The date of a moment, as mail has it (RFC 5322, 3.3). The calendar is that of `jiff`.

ghost use Rattle.std.specs.Prelude.{◌≡◌, ◌<◌, ◌≤◌, pos, IfOk, string_bytes};
ghost use Rattle.hq_memory.specs.Making.{MadeIn};
ghost use Rattle.jiff.specs.Words.{epoch_day};
ghost use Rattle.hq_rules.specs.Dates.{two, civil, weekday_name, month_name, day_text, clock_text};
ghost use Rattle.hq_rules.specs.Dates as dates;

use hq_memory::Memory;
use hq_values::Moment;
use jiff::ToSpan;
use jiff::civil::{Date, date};
use std::alloc::AllocError;

/// How many seconds a day has. The last moment is on day 47,481 after 1 January 1970.
const DAY_SECONDS: u64 = 86_400;

/// The date that comes so many days after 1 January 1970.
fn day_date(days: u32) -> Date
    requires { days < 47482 }
    ensures { epoch_day result ≡ pos days }
{
    let days = i64::from(days);
    match date(1970, 1, 1).checked_add(days.days()) {
        Ok(day) => day,
        Err(_) => unreachable!(),
    }
}

/// The year, the month and the day of the date that comes so many days after 1 January 1970.
fn parts(days: u32) -> (u16, u8, u8)
    requires { days < 47482 }
    ensures year { result.0 ≡ (civil days).year }
    ensures month { result.1 ≡ (civil days).month }
    ensures day { result.2 ≡ (civil days).day }
    ensures low { 1 ≤ result.1 }
    ensures high { result.1 ≤ 12 }
{
    let date = day_date(days);
    (
        date.year().unsigned_abs(),
        date.month().unsigned_abs(),
        date.day().unsigned_abs(),
    )
}

#[tactic(auto, unfolding(hq_rules::specs::Dates::weekday_name))]
fn weekday_name(days: u32) -> &'static str
    ensures { result.now ≡ weekday_name days }
{
    match days % 7 {
        0 => "Thu",
        1 => "Fri",
        2 => "Sat",
        3 => "Sun",
        4 => "Mon",
        5 => "Tue",
        _ => "Wed",
    }
}

#[tactic(auto, unfolding(hq_rules::specs::Dates::month_name))]
fn month_name(month: u8) -> &'static str
    requires low { 1 ≤ month }
    requires high { month ≤ 12 }
    ensures { result.now ≡ month_name month }
{
    match month {
        1 => "Jan",
        2 => "Feb",
        3 => "Mar",
        4 => "Apr",
        5 => "May",
        6 => "Jun",
        7 => "Jul",
        8 => "Aug",
        9 => "Sep",
        10 => "Oct",
        11 => "Nov",
        _ => "Dec",
    }
}

/// A number below 100 in two digits.
fn two<M: Memory>(memory: M, number: u32) -> Result<String, AllocError>
    ensures { MadeIn M.refused result (λ text. string_bytes text ≡ two number) }
{
    memory.show(format_args!("{}{}", number / 10, number % 10))
}

#[tactic(auto, unfolding(hq_rules::specs::Dates::clock_text))]
fn clock_text<M: Memory>(memory: M, seconds: u32) -> Result<String, AllocError>
    ensures { MadeIn M.refused result (λ text. string_bytes text ≡ clock_text seconds) }
{
    let hour = two(memory, seconds / 3600)?;
    let minute = two(memory, seconds / 60 % 60)?;
    let second = two(memory, seconds % 60)?;
    memory.show(format_args!("{hour}:{minute}:{second}"))
}

#[tactic(auto, unfolding(hq_rules::specs::Dates::day_text))]
fn day_text<M: Memory>(memory: M, days: u32) -> Result<String, AllocError>
    requires { days < 47482 }
    ensures { MadeIn M.refused result (λ text. string_bytes text ≡ day_text days) }
{
    let (year, month, day) = parts(days);
    let weekday = weekday_name(days);
    let month = month_name(month);
    let day = two(memory, u32::from(day))?;
    memory.show(format_args!("{weekday}, {day} {month} {year}"))
}

/// The date of a moment, as in `Thu, 01 Jan 2026 00:00:00 +0000` (RFC 5322, 3.3): in UTC, the day
/// and the clock in two digits, the year in four. The only error is want of memory.
#[tactic(auto, unfolding(hq_rules::specs::Dates::date_text))]
pub fn date_text<M: Memory>(memory: M, at: Moment) -> Result<String, AllocError>
    ensures { MadeIn M.refused result (λ text. string_bytes text ≡ dates.date_text at) }
{
    let at = at.get();
    let day = day_text(memory, (at / DAY_SECONDS) as u32)?;
    let clock = clock_text(memory, (at % DAY_SECONDS) as u32)?;
    let mut text = memory.show(format_args!("{day} {clock}"))?;
    memory.append(&mut text, " +0000")?;
    Ok(text)
}
