// The demonstration: the two-contact sheet and the scans P12 of the scope of work.
use status::{Fault, Status};

// The scans, as a trace.
const P12: &[u8] = b"100 10\n110 10\n110 99\n110 1\n111 10\n100 10\n111 10\n011 5\n";

// The sheet, as examples/make.py writes it.
const TWO_CONTACT: [u8; 165] = [
    65, 25, 136, 68, 69, 84, 86, 8, 0, 0, 0, 0, 32, 8, 0, 0, 0, 0, 16, 6, 0, 0, 0, 0, 8, 4, 0, 0,
    0, 0, 4, 2, 128, 0, 0, 0, 2, 1, 128, 0, 0, 0, 1, 0, 224, 0, 0, 0, 0, 128, 128, 0, 0, 0, 0, 64,
    0, 64, 0, 0, 0, 0, 20, 1, 0, 0, 0, 129, 8, 34, 4, 0, 0, 0, 16, 70, 12, 0, 0, 0, 17, 16, 8, 0,
    3, 32, 2, 8, 32, 0, 0, 4, 33, 32, 24, 0, 0, 0, 35, 40, 16, 0, 6, 64, 6, 16, 64, 0, 0, 8, 35,
    64, 48, 0, 0, 0, 136, 16, 32, 0, 0, 14, 8, 69, 8, 16, 0, 0, 7, 4, 35, 132, 8, 0, 0, 3, 130, 17,
    142, 4, 0, 1, 144, 3, 4, 16, 0, 0, 3, 130, 18, 2, 4, 0, 0, 1, 193, 9, 6, 4, 0, 0, 0, 192, 132,
];

const WORDS: &str = "\
The two-contact sheet, for SF_Equivalent. Inputs: Activate, A, B. Outputs: activity, Ready, EquivalentOut, Error.
States: 0 Idle, 1 Init, 2 Wait for A, 3 Wait for B, 4 Error 1, 5 Error 2, 6 From Active Wait, 7 Error 3, 8 Enabled.
";

// The sheet's verdict and its code's size, as `check` and `translate` say them, and then its scans.
pub fn demo_command(rt: &HostRuntime) -> Result<Status, Fault> {
    let code = rewrite::code_of(rt.alloc(), &TWO_CONTACT)?;
    status::tell(rt, &mut rt.stdout(), WORDS)?;
    report::check_sheet(rt, &TWO_CONTACT)?;
    report::tell_code(rt, &mut rt.stdout(), "translated", code.len())?;
    running::run_held(rt, &TWO_CONTACT, code.as_slice(), P12, b"P12")
}
