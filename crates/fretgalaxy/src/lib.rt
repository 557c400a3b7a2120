// The replay for hosts in C, Rust or Python: include/fretgalaxy.h declares it and states the
// caller's duties. The script's layout and that of the answers are in docs/FORMATS.md.
#![tactic(auto)]

ghost use Rattle.std.specs.Prelude.{◌≡◌};
ghost use Rattle.replays.specs.Replays.{Outcome, replayed};

use scripts::ScriptError;

// What happened (0: replayed, 1: the script is malformed, 2: its answers have no room) and a place:
// how many bytes of the output the answers take, or the byte of the script at which the refused
// call begins.
// An exported function returns no enum, and include/fretgalaxy.h has these fields: so no Result.
#[repr(C)]
#[derive(Clone, Copy)]
pub struct Report {
    pub status: u32,
    pub place: usize,
}

// Replays a script on two pages and writes the answers to the output; what a refused script leaves
// is what there was.
// C hands over each page by itself.
#[unsafe(no_mangle)]
pub extern "C" fn fretgalaxy_replay(
    left: &mut [u8],
    right: &mut [u8],
    script: &[u8],
    out: &mut [u8],
) -> Report
    ensures { ◌≡◌ {A = Outcome}
        (record {
          report = record { status = result.status; place = result.place };
          left = left.new;
          right = right.new;
          out = out.new;
        })
        (replayed
        left.old
        right.old
        script.now
        out.old) }
{
    match replays::replay(left, right, script, out) {
        Ok(place) => Report { status: 0, place },
        Err(ScriptError::Malformed(place)) => Report { status: 1, place },
        Err(ScriptError::NoRoom(place)) => Report { status: 2, place },
    }
}
