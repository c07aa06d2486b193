//! Laws that follow from the definitions alone, for proofs over frames.

ghost use Rattle.lsp_frame.specs.laws.Frames.{OneFrameLaw, FrontLaw, BoundLaw, DecisionLaw, AllFramesLaw, FramesLaw, ReadingLaw, FaultLaw, StayingLaw, HopelessLaw, WrittenLaw, InjectiveLaw};

/// Promises what is true of every frame and stream, whatever the limit on bodies is (LSP 3.17, Base
/// Protocol). The call itself does nothing.
///
/// - A frame has one body. No frame is a proper prefix of another, so the same bytes begin with at
///   most one frame.
/// - A frame has at most 8,192 bytes more than the limit.
/// - Bytes either begin with a whole frame or they don't. A stream has exactly one list of frames,
///   and one fault or none after them.
/// - A fault is decided at one byte alone, whatever follows it, and no frame begins there any more.
/// - A written frame is read as its body, and different bodies have different frames, if they are
///   shorter than 2^64 bytes.
pub fn frame_laws()
    ensures one_frame { OneFrameLaw }
    ensures front { FrontLaw }
    ensures bound { BoundLaw }
    ensures decision { DecisionLaw }
    ensures all_frames { AllFramesLaw }
    ensures frames { FramesLaw }
    ensures reading { ReadingLaw }
    ensures fault { FaultLaw }
    ensures staying { StayingLaw }
    ensures hopeless { HopelessLaw }
    ensures written { WrittenLaw }
    ensures injective { InjectiveLaw }
{}
