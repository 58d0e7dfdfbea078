//! A usual control file: twelve stations with P and S picks, and statements of other programs that are passed over. The expected values were
//! found apart from this code.

use crate::running::{Ending, Files, expect, plain};
use edt_outside::Name;
use std::alloc::Global;
use std::test::Fail;

const CONTROL: &str = "CONTROL 1 54321
TRANS SIMPLE 46.0 8.0 0.0
VGOUT model/layer
VGTYPE P
VGGRID 2 2 2 0.0 0.0 0.0 1.0 1.0 1.0 SLOW_LEN
LAYER 0.0 5.8 0.0 3.4 0.0 2.7 0.0
GTFILES model/layer time/net P
GTMODE GRID3D ANGLES_NO
GTSRCE ST01 XYZ 0.0 0.0 0.0 0.0
GT_PLFD 1.0e-3 0
LOCSIG observatory
LOCCOM sample of twelve stations
LOCHYPOUT SAVE_NLLOC_ALL
LOCFILES obs.txt NLLOC_OBS time/net loc/net
LOCGRID 2 2 2 0.0 0.0 0.0 1.0 1.0 1.0 PROB_DENSITY SAVE
LOCMETH EDT 9999.0 4 -1 -1 -1 0
LOCGAU 0.1 0.0
LOCSEARCH OCT 10 10 4 0.01 10000 5000 0 1
LOCPHASEID P P p Pn Pg
LOCPHASEID S S s Sn Sg
";

// The first pick has a code of the phase P.
const PHASES: &str = "ST01 ? ? ? Pn ? 19940217 2216 45.0 GAU 0.1 -1 -1 -1
ST01 ? ? ? S ? 19940217 2216 45.7 GAU 0.1 -1 -1 -1
ST02 ? ? ? P ? 19940217 2216 45.0 GAU 0.1 -1 -1 -1
ST02 ? ? ? S ? 19940217 2216 45.7 GAU 0.1 -1 -1 -1
ST03 ? ? ? P ? 19940217 2216 45.0 GAU 0.1 -1 -1 -1
ST03 ? ? ? S ? 19940217 2216 45.7 GAU 0.1 -1 -1 -1
ST04 ? ? ? P ? 19940217 2216 45.0 GAU 0.1 -1 -1 -1
ST04 ? ? ? S ? 19940217 2216 45.7 GAU 0.1 -1 -1 -1
ST05 ? ? ? P ? 19940217 2216 45.0 GAU 0.1 -1 -1 -1
ST05 ? ? ? S ? 19940217 2216 45.7 GAU 0.1 -1 -1 -1
ST06 ? ? ? P ? 19940217 2216 45.0 GAU 0.1 -1 -1 -1
ST06 ? ? ? S ? 19940217 2216 45.7 GAU 0.1 -1 -1 -1
ST07 ? ? ? P ? 19940217 2216 45.0 GAU 0.1 -1 -1 -1
ST07 ? ? ? S ? 19940217 2216 45.7 GAU 0.1 -1 -1 -1
ST08 ? ? ? P ? 19940217 2216 45.0 GAU 0.1 -1 -1 -1
ST08 ? ? ? S ? 19940217 2216 45.7 GAU 0.1 -1 -1 -1
ST09 ? ? ? P ? 19940217 2216 45.0 GAU 0.1 -1 -1 -1
ST09 ? ? ? S ? 19940217 2216 45.7 GAU 0.1 -1 -1 -1
ST10 ? ? ? P ? 19940217 2216 45.0 GAU 0.1 -1 -1 -1
ST10 ? ? ? S ? 19940217 2216 45.7 GAU 0.1 -1 -1 -1
ST11 ? ? ? P ? 19940217 2216 45.0 GAU 0.1 -1 -1 -1
ST11 ? ? ? S ? 19940217 2216 45.7 GAU 0.1 -1 -1 -1
ST12 ? ? ? P ? 19940217 2216 45.0 GAU 0.1 -1 -1 -1
ST12 ? ? ? S ? 19940217 2216 45.7 GAU 0.1 -1 -1 -1
";

// At node 0 all 276 pairs have the misfit 0, and at every other node all are past the kernel's end.
const TEXT: &str = "EDTLOC 1 EVENTS 1 PASSED 12 0
EVENT 1 PICKS 24 SKIPPED 0
PICK ST01 P 761523405000000 1000 0
PICK ST01 S 761523405700000 1000 0
PICK ST02 P 761523405000000 1000 0
PICK ST02 S 761523405700000 1000 0
PICK ST03 P 761523405000000 1000 0
PICK ST03 S 761523405700000 1000 0
PICK ST04 P 761523405000000 1000 0
PICK ST04 S 761523405700000 1000 0
PICK ST05 P 761523405000000 1000 0
PICK ST05 S 761523405700000 1000 0
PICK ST06 P 761523405000000 1000 0
PICK ST06 S 761523405700000 1000 0
PICK ST07 P 761523405000000 1000 0
PICK ST07 S 761523405700000 1000 0
PICK ST08 P 761523405000000 1000 0
PICK ST08 S 761523405700000 1000 0
PICK ST09 P 761523405000000 1000 0
PICK ST09 S 761523405700000 1000 0
PICK ST10 P 761523405000000 1000 0
PICK ST10 S 761523405700000 1000 0
PICK ST11 P 761523405000000 1000 0
PICK ST11 S 761523405700000 1000 0
PICK ST12 P 761523405000000 1000 0
PICK ST12 S 761523405700000 1000 0
HYPOCENTRE 0 0 0 0 0 0
ORIGIN 1994-02-17 22:16:44.000000
RMS 0
MET 8
CERT LOCATED
BEST 0 94832877895680
NEAR 1
0 94832877895680
COVER 8
0 1 0 1 0 1 94832877895680
0 1 0 1 1 2 0
0 1 1 2 0 1 0
0 1 1 2 1 2 0
1 2 0 1 0 1 0
1 2 0 1 1 2 0
1 2 1 2 0 1 0
1 2 1 2 1 2 0
END
";

const STATIONS: [&str; 12] = [
    "ST01", "ST02", "ST03", "ST04", "ST05", "ST06", "ST07", "ST08", "ST09", "ST10", "ST11", "ST12",
];

// The eight times of a body: this many microseconds at node 0, and this many seconds more from each node to the next.
fn body(alloc: Global, first: u32, seconds: u32) -> Result<Vec<u8>, Fail> {
    let mut bytes = Vec::new(alloc);
    let mut time = first;
    for _ in 0..8 {
        bytes.extend_from_slice(&time.to_le_bytes())?;
        time = time.saturating_add(seconds.saturating_mul(1_000_000));
    }
    Ok(bytes)
}

// Adds the header and the body of this station and phase.
fn add_grid(
    alloc: Global,
    files: &mut Files,
    phase: &str,
    station: &str,
    body: Vec<u8>,
) -> Result<(), Fail> {
    let header = format!(in alloc;
        "2 2 2 0.0 0.0 0.0 1.0 1.0 1.0 TIME USEC32\n{station} 0.0 0.0 0.0\n"
    )?;
    let name = format!(in alloc; "time/net.{phase}.{station}.time.hdr")?;
    files.push((Name::new(alloc, name.as_str())?, header.into_bytes()))?;
    let name = format!(in alloc; "time/net.{phase}.{station}.time.usec")?;
    files.push((Name::new(alloc, name.as_str())?, body))?;
    Ok(())
}

// The control file, the phase file and the 24 time grids.
fn network(alloc: Global) -> Result<Files, Fail> {
    let mut files = Vec::new(alloc);
    files.push((
        Name::new(alloc, "net.in")?,
        CONTROL.as_bytes().to_vec(alloc)?,
    ))?;
    files.push((
        Name::new(alloc, "obs.txt")?,
        PHASES.as_bytes().to_vec(alloc)?,
    ))?;
    // Station k has the steps of k and of 100 + k seconds.
    for ((p, s), station) in (1..).zip(101..).zip(STATIONS) {
        add_grid(alloc, &mut files, "P", station, body(alloc, 1_000_000, p)?)?;
        add_grid(alloc, &mut files, "S", station, body(alloc, 1_700_000, s)?)?;
    }
    Ok(files)
}

#[test]
fn locates_with_a_usual_control_file(rt: HostRuntime) -> Result<(), Fail> {
    let alloc = rt.alloc();
    let ending = Ending {
        status: 0,
        out: TEXT,
        err: "",
    };
    expect(
        &rt,
        alloc,
        network(alloc)?,
        &plain(&["locate", "net.in"]),
        &ending,
    )
}
