// The command that translates: CODE is the old file or the whole new one.
#![tactic(auto)]

ghost use Rattle.std.specs.Prelude.{IfOk};
ghost use Rattle.rewrite.specs.Code.{IsCodeOf};

use explain::Explained;
use files::{Word, Wrote};
use report::{read_file, tell_code};
use status::{Fault, Status};
use std::alloc::Global;

// Any sheet's code fits in as many bytes.
const ROOM: usize = 26028;

pub fn code_of(alloc: Global, sheet: &[u8]) -> Result<Vec<u8>, Fault>
    ensures { IfOk result (λ code. IsCodeOf sheet.now code.items) }
{
    let mut code = vec![in alloc; 0u8; ROOM]?;
    let translated = translate::translate(sheet, code.as_mut_slice());
    translated.verdict?;
    code.truncate(translated.length);
    Ok(code)
}

pub fn translate_command(rt: &HostRuntime, sheet: &Word, code: &Word) -> Result<Status, Fault> {
    let name = code.name(rt.alloc(), "the code's name")?;
    // The launcher looks through links; the program itself sees only that the names are the same.
    if sheet.bytes() == name {
        return Err(Fault::Usage("the code would replace the sheet"));
    }
    let read = read_file(rt, sheet, report::SHEET_BYTES)?;
    let code = match code_of(rt.alloc(), read.as_slice()) {
        // Where the code is standard output's, all else is said on standard error.
        Err(Fault::Refused(why)) if files::is_output(name) => {
            status::tell(rt, &mut rt.stderr(), Explained(why))?;
            return Ok(Status::Refused);
        }
        done => done?,
    };
    match files::write_file(rt, name, code.as_slice())? {
        Wrote::File => tell_code(rt, &mut rt.stdout(), "translated", code.len())?,
        Wrote::Stream => tell_code(rt, &mut rt.stderr(), "translated", code.len())?,
    }
    Ok(Status::Accepted)
}

#[cfg(test)]
mod tests {
    use super::*;
    use std::test::Fail;

    // P11 of the paper: the sheet M and its code.
    const M: [u8; 9] = [8, 0, 8, 32, 0, 0, 0, 0, 128];

    const CODE_OF_M: [u8; 64] = [
        1, 0, 0, 1, 4, 0, 0, 0, 2, 0, 0, 0, 3, 0, 0, 0, 6, 0, 0, 0, 8, 0, 0, 1, 9, 0, 0, 0, 12, 0,
        0, 9, 13, 0, 0, 15, 11, 0, 0, 0, 14, 0, 0, 0, 13, 0, 0, 15, 10, 0, 0, 0, 14, 0, 0, 0, 13,
        0, 0, 15, 0, 0, 0, 0,
    ];

    #[test]
    fn translates_m(rt: HostRuntime) -> Result<(), Fail> {
        let Ok(code) = code_of(rt.alloc(), &M) else {
            return Err(Fail::new("M is not translated"));
        };
        assert_eq!(rt; code.as_slice(), CODE_OF_M.as_slice());
        Ok(())
    }
}
