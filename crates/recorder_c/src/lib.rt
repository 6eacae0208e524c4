// The exports for C: each calls the function of its name in crate recorder, and promises what that promises.
#![tactic(auto)]

ghost use Rattle.scan.specs.Scan.{state_with};
ghost use Rattle.machine.specs.Run.{record_with};
ghost use Rattle.recorder.specs.Calls.{ChzCheckSheet, ChzCheckCode, ChzTranslate, ChzColdScan, ChzColdRun, ChzScan, ChzRun};

// Judges a sheet.
#[unsafe(no_mangle)]
pub extern "C" fn chz_check_sheet(sheet: &[u8], place: &mut u32) -> u32
    ensures { ChzCheckSheet sheet.now result place.new }
{
    recorder::chz_check_sheet(sheet, place)
}

// Judges code.
#[unsafe(no_mangle)]
pub extern "C" fn chz_check_code(code: &[u8], place: &mut u32) -> u32
    ensures { ChzCheckCode code.now result place.new }
{
    recorder::chz_check_code(code, place)
}

// Writes the code of a sheet.
#[unsafe(no_mangle)]
pub extern "C" fn chz_translate(
    sheet: &[u8],
    code: &mut [u8],
    length: &mut u32,
    place: &mut u32,
) -> u32
    ensures { ChzTranslate sheet.now code.old result place.new length.new code.new }
{
    recorder::chz_translate(sheet, code, length, place)
}

// The reference's cold start; what the record held is not read.
#[unsafe(no_mangle)]
pub extern "C" fn chz_cold_scan(
    sheet: &[u8],
    state: &mut u8,
    outputs: &mut u16,
    clock: &mut u32,
    place: &mut u32,
) -> u32
    ensures { ChzColdScan sheet.now result place.new state.new outputs.new clock.new }
{
    recorder::chz_cold_scan(sheet, state, outputs, clock, place)
}

// The runner's cold start; what the record held is not read.
#[unsafe(no_mangle)]
pub extern "C" fn chz_cold_run(
    sheet: &[u8],
    flags: &mut u32,
    outputs: &mut u16,
    clock: &mut u32,
    place: &mut u32,
) -> u32
    ensures { ChzColdRun sheet.now result place.new flags.new outputs.new clock.new }
{
    recorder::chz_cold_run(sheet, flags, outputs, clock, place)
}

// One scan of the reference.
#[unsafe(no_mangle)]
pub extern "C" fn chz_scan(
    sheet: &[u8],
    state: &mut u8,
    outputs: &mut u16,
    clock: &mut u32,
    inputs: u16,
    elapsed: u32,
    place: &mut u32,
) -> u32
    ensures { ChzScan sheet.now (state_with state.old outputs.old clock.old) inputs elapsed result place.new state.new outputs.new clock.new }
{
    recorder::chz_scan(sheet, state, outputs, clock, inputs, elapsed, place)
}

// One scan of code.
#[unsafe(no_mangle)]
pub extern "C" fn chz_run(
    code: &[u8],
    flags: &mut u32,
    outputs: &mut u16,
    clock: &mut u32,
    inputs: u16,
    elapsed: u32,
    place: &mut u32,
) -> u32
    ensures { ChzRun code.now (record_with flags.old outputs.old clock.old) inputs elapsed result place.new flags.new outputs.new clock.new }
{
    recorder::chz_run(code, flags, outputs, clock, inputs, elapsed, place)
}
