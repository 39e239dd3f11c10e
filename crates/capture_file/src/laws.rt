//! Laws of the layout, over its definitions alone. The functions do nothing: what they ensure are the laws.
ghost use Rattle.capture_file.specs.Laws.{NoFault, OneCapture, OneFault, OneReading, TapIsCaptured, TapIsTap};

/// Bytes are the capture of one triple of lanes at most, in whichever version.
pub fn one_capture()
    ensures { OneCapture }
{}

/// A capture has no fault.
pub fn no_fault()
    ensures { NoFault }
{}

/// Bytes have one fault at most.
pub fn one_fault()
    ensures { OneFault }
{}

/// The whole blocks of bytes before a place are one list of bytes, which has one triple of lanes.
pub fn one_reading()
    ensures { OneReading }
{}

/// The bits that a tap takes of columns are a tap of them, where each lane begins within them.
pub fn tap_is_tap()
    ensures { TapIsTap }
{}

/// What is written of a tap of columns is the capture of the bits that it takes, in the version that it names.
pub fn tap_is_captured()
    ensures { TapIsCaptured }
{}
