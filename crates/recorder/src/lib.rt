// The C boundary, which crate recorder_c exports: each call answers with plain numbers, and settles what stands behind
// each pointer.
#![tactic(auto)]

ghost use Rattle.std.specs.Prelude.{◌≤◌};
ghost use Rattle.answer.specs.Number.{place_of, farthest};
ghost use Rattle.scan.specs.Scan.{state_with};
ghost use Rattle.machine.specs.Run.{record_with};
ghost use Rattle.recorder.specs.Answer.{Told};
ghost use Rattle.recorder.specs.Calls.{ChzCheckSheet, ChzCheckCode, ChzTranslate, ChzColdScan, ChzColdRun};
ghost use Rattle.recorder.specs.Calls.{ChzScan, ChzRun};

use answer::Checked;
use machine::Record;
use scan::State;

// The number, and the place behind its pointer: no place needs more than 32 bits.
fn answered(verdict: Checked, place: &mut u32) -> u32
    requires { place_of verdict ≤ farthest }
    ensures { Told verdict result place.new }
{
    *place = answer::place_of(verdict) as u32;
    answer::number_of(verdict)
}

// Judges a sheet.
pub fn chz_check_sheet(sheet: &[u8], place: &mut u32) -> u32
    ensures { ChzCheckSheet sheet.now result place.new }
{
    answered(sheet::check_sheet(sheet), place)
}

// Judges code.
pub fn chz_check_code(code: &[u8], place: &mut u32) -> u32
    ensures { ChzCheckCode code.now result place.new }
{
    answered(faults::check_code(code), place)
}

// Writes the code of a sheet.
pub fn chz_translate(sheet: &[u8], code: &mut [u8], length: &mut u32, place: &mut u32) -> u32
    ensures { ChzTranslate sheet.now code.old result place.new length.new code.new }
{
    let translated = translate::translate(sheet, code);
    *length = translated.length as u32;
    answered(translated.verdict, place)
}

// The reference's cold start; what the record held is not read.
pub fn chz_cold_scan(
    sheet: &[u8],
    state: &mut u8,
    outputs: &mut u16,
    clock: &mut u32,
    place: &mut u32,
) -> u32
    ensures { ChzColdScan sheet.now result place.new state.new outputs.new clock.new }
{
    let cold = scan::cold_scan(sheet);
    State {
        state: *state,
        outputs: *outputs,
        clock: *clock,
    } = cold.record;
    answered(cold.verdict, place)
}

// The runner's cold start; what the record held is not read.
pub fn chz_cold_run(
    sheet: &[u8],
    flags: &mut u32,
    outputs: &mut u16,
    clock: &mut u32,
    place: &mut u32,
) -> u32
    ensures { ChzColdRun sheet.now result place.new flags.new outputs.new clock.new }
{
    let cold = translate::cold_run(sheet);
    Record {
        flags: *flags,
        outputs: *outputs,
        clock: *clock,
    } = cold.record;
    answered(cold.verdict, place)
}

// One scan of the reference.
pub fn chz_scan(
    sheet: &[u8],
    state: &mut u8,
    outputs: &mut u16,
    clock: &mut u32,
    inputs: u16,
    elapsed: u32,
    place: &mut u32,
) -> u32
    ensures { ChzScan sheet.now (state_with state.old outputs.old clock.old) inputs elapsed
        result place.new state.new outputs.new clock.new }
{
    let given = scan::state_with(*state, *outputs, *clock);
    let scanned = scan::scan(sheet, given, inputs, elapsed);
    State {
        state: *state,
        outputs: *outputs,
        clock: *clock,
    } = scanned.record;
    answered(scanned.verdict, place)
}

// One scan of code.
pub fn chz_run(
    code: &[u8],
    flags: &mut u32,
    outputs: &mut u16,
    clock: &mut u32,
    inputs: u16,
    elapsed: u32,
    place: &mut u32,
) -> u32
    ensures { ChzRun code.now (record_with flags.old outputs.old clock.old) inputs elapsed
        result place.new flags.new outputs.new clock.new }
{
    let given = machine::record_with(*flags, *outputs, *clock);
    let ran = machine::run(code, given, inputs, elapsed);
    Record {
        flags: *flags,
        outputs: *outputs,
        clock: *clock,
    } = ran.record;
    answered(ran.verdict, place)
}
