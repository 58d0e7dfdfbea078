//! The names of causes, as the line of a refusal tells them.
ghost use Rattle.std.specs.Prelude.{◌≡◌};
ghost use Rattle.run_input.specs.CauseNames.{axis_cause_name, control_cause_name, header_cause_name, phase_cause_name};

use control_reader::{ControlCause, Keyword};
use grid_header::HeaderError;
use phase_reader::PhaseCause;
use time_grid::Axis;

// The name of a cause of a control file, with the keyword after `Missing`.
pub fn control_cause_name(cause: &ControlCause) -> &[u8]
    ensures { result.now ≡ control_cause_name cause.now }
{
    match cause {
        ControlCause::LongLine => b"LongLine",
        ControlCause::Repeated => b"Repeated",
        ControlCause::Fields => b"Fields",
        ControlCause::Name => b"Name",
        ControlCause::Number => b"Number",
        ControlCause::Method => b"Method",
        ControlCause::FileType => b"FileType",
        ControlCause::Limit => b"Limit",
        ControlCause::NotYet => b"NotYet",
        ControlCause::NestedInclude => b"NestedInclude",
        ControlCause::Missing(Keyword::Locfiles) => b"Missing LOCFILES",
        ControlCause::Missing(Keyword::Locgrid) => b"Missing LOCGRID",
        ControlCause::Missing(Keyword::Locmeth) => b"Missing LOCMETH",
        ControlCause::Missing(Keyword::Locgau) => b"Missing LOCGAU",
        ControlCause::Memory => b"Memory",
    }
}

// The name of a cause of a phase file.
pub fn phase_cause_name(cause: &PhaseCause) -> &[u8]
    ensures { result.now ≡ phase_cause_name cause.now }
{
    match cause {
        PhaseCause::LongLine => b"LongLine",
        PhaseCause::Fields => b"Fields",
        PhaseCause::Name => b"Name",
        PhaseCause::Date => b"Date",
        PhaseCause::Time => b"Time",
        PhaseCause::Number => b"Number",
        PhaseCause::ErrorType => b"ErrorType",
        PhaseCause::Limit => b"Limit",
        PhaseCause::Memory => b"Memory",
    }
}

// The name of a cause of a header.
pub fn header_cause_name(cause: HeaderError) -> &'static [u8]
    ensures { result.now ≡ header_cause_name cause }
{
    match cause {
        HeaderError::Shape => b"Shape",
        HeaderError::Kind => b"Kind",
        HeaderError::FloatBody => b"FloatBody",
        HeaderError::Number => b"Number",
        HeaderError::Limit => b"Limit",
    }
}

// The name of an axis after the cause that it is told with.
pub fn axis_cause_name(axis: Axis) -> &'static [u8]
    ensures { result.now ≡ axis_cause_name axis }
{
    match axis {
        Axis::X => b"NotAligned X",
        Axis::Y => b"NotAligned Y",
        Axis::Z => b"NotAligned Z",
    }
}
