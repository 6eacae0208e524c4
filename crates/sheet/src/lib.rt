// The rules of a sheet: numbers 7 to 13, and the check that answers every byte string.
#![tactic(auto)]

ghost use Rattle.std.specs.Prelude.{◌≡◌, List, ℕ, ◌≤◌, length};
ghost use Rattle.answer.specs.Lowest.{first_below};
ghost use Rattle.reader.specs.Sheet.{Sheet};
ghost use Rattle.reader.specs.inside.Decoding.{Copy};
ghost use Rattle.sheet.specs.Judging.{judge, ChecksSheet};
ghost use Rattle.sheet.specs.inside.Arrows.{Refuses, breaks_arrow, first_break, key_of, first_alike, first_clash};
ghost use Rattle.sheet.specs.inside.Arrows.{Homes, lacks_home_arrow, activity_row};
ghost use Rattle.sheet.specs.inside.Opening.{Opens};

use answer::{Checked, Refusal};
use condition::Form;
use reader::{Arrow, Decoded};

// The rules that look at one transition by itself.
#[derive(Clone, Copy, Debug, PartialEq, Eq)]
enum Rule {
    Loop,
    HomeForm,
    Gate,
}

// The rules by which two transitions of one source clash.
#[derive(Clone, Copy, Debug, PartialEq, Eq)]
enum Clash {
    Pair,
    Rank,
}

// 7 LOOP: back to its own source. 11 HOME-FORM: to 0, and not priority 0, wait 0 and NOT input 0.
// 12 GATE: from 0, and its condition has neither form; no value of the condition is asked.
fn breaks(rule: Rule, t: Arrow) -> bool
    ensures { result ≡ breaks_arrow rule t }
{
    match rule {
        Rule::Loop => t.source == t.destination,
        Rule::HomeForm => {
            t.destination == 0 && !(t.priority == 0 && t.wait == 0 && matches!(t.form, Form::Off))
        }
        Rule::Gate => t.source == 0 && !matches!(t.form, Form::On | Form::Gated),
    }
}

// The first transition that breaks the rule.
fn first_arrow(arrows: &[u64], rule: Rule) -> Option<usize>
    ensures { result ≡ first_break rule arrows.now }
{
    arrows
        .iter()
        .position(|w| breaks(rule, reader::unpacked(*w)))
}

// A transition's key: two of them are equal where the sources are and, for PAIR the destinations, for RANK the
// priorities.
fn key(clash: Clash, t: Arrow) -> u16
    ensures { result ≡ key_of clash t }
{
    let source = u16::from(t.source) * 256;
    match clash {
        Clash::Pair => source + u16::from(t.destination),
        Clash::Rank => source + u16::from(t.priority),
    }
}

// The first of the keys that an earlier one equals: document 01's nested search, left by its label.
fn first_alike(keys: &[u16]) -> Option<usize>
    ensures { result ≡ first_alike keys.now }
{
    'clash: {
        for later in 0..keys.len() {
            for earlier in 0..later {
                if keys[earlier] == keys[later] {
                    break 'clash Some(later);
                }
            }
        }
        None
    }
}

// 8 PAIR and 9 RANK: the first transition that clashes with an earlier one. Their keys are a table of their own, since the
// search looks at each many times.
fn first_clash(arrows: &[u64], clash: Clash) -> Option<usize>
    requires { length arrows.now ≤ 128 }
    ensures { result ≡ first_clash clash arrows.now }
{
    let mut keys = [0u16; 128];
    for (i, w) in arrows.iter().enumerate() {
        keys[i] = key(clash, reader::unpacked(*w));
    }
    first_alike(&keys[..arrows.len()])
}

// The word whose bit s says that state s has a transition to 0.
fn homes(arrows: &[u64]) -> u32
    ensures { Homes arrows.now (length arrows.now) result }
{
    let mut word: u32 = 0;
    for w in arrows {
        let t = reader::unpacked(*w);
        if t.destination == 0 {
            word = bits::set_bit(word, u32::from(t.source));
        }
    }
    word
}

// 10 NO-HOME: the first of n states, other than 0, without a transition to 0.
fn first_no_home(arrows: &[u64], n: u32) -> Option<usize>
    requires { n ≤ 32 }
    ensures { result ≡ first_below (lacks_home_arrow arrows.now) n }
{
    let word = homes(arrows);
    for s in 1..n {
        if !bits::get_bit(word, s) {
            return Some(s as usize);
        }
    }
    None
}

// 13 ACTIVITY: the first state whose output 0 is not whether it is state 0.
fn first_activity(rows: &[u16]) -> Option<usize>
    ensures { result ≡ first_below (activity_row rows.now) (length rows.now) }
{
    for (s, row) in rows.iter().enumerate() {
        let active = *row % 2 == 1;
        if active != (s == 0) {
            return Some(s);
        }
    }
    None
}

// Refuses at what was found.
fn refuse<F: FnOnce(usize) -> Refusal>(found: Option<usize>, why: F) -> Checked
    requires { F.IsAlwaysCallable why }
    ensures { Refuses (F.post why) found result }
{
    match found {
        Some(i) => Err(why(i)),
        None => Ok(()),
    }
}

// The numbers 7 to 13 of a sheet read to its end, the lowest first.
fn judge_decoded(decoded: &Decoded) -> Checked
    requires { (decoded.now.header.states ≤ 32) × (decoded.now.header.transitions ≤ 128) }
    ensures { (s : List ℕ) (a : Sheet) → Copy s decoded.now a → result ≡ judge a }
{
    let arrows = decoded.arrows();
    let rows = decoded.rows();
    refuse(first_arrow(arrows, Rule::Loop), Refusal::Loop)?;
    refuse(first_clash(arrows, Clash::Pair), Refusal::Pair)?;
    refuse(first_clash(arrows, Clash::Rank), Refusal::Rank)?;
    refuse(
        first_no_home(arrows, decoded.header.states),
        Refusal::NoHome,
    )?;
    refuse(first_arrow(arrows, Rule::HomeForm), Refusal::HomeForm)?;
    refuse(first_arrow(arrows, Rule::Gate), Refusal::Gate)?;
    refuse(first_activity(rows), Refusal::Activity)
}

// A sheet that is checked and decoded once, for the crates that go on with it.
pub fn open_sheet(sheet: &[u8], decoded: &mut Decoded) -> Checked
    ensures { Opens sheet.now result decoded.new }
{
    reader::read_sheet(sheet, decoded)?;
    judge_decoded(decoded)
}

// The verdict on any byte string.
pub fn check_sheet(sheet: &[u8]) -> Checked
    ensures { ChecksSheet sheet.now result }
{
    let mut decoded = Decoded::empty();
    open_sheet(sheet, &mut decoded)
}
