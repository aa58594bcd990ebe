//! What the definitions promise to those who build on them.
ghost use Rattle.std.specs.Prelude.{◌≡◌, ◌*◌};
ghost use Rattle.capture.specs.BodyLaws.{BodiesHaveAPayload, CapturesHaveOnePayload, CutBodiesSplitOneWay, CutWiresHaveAPayload, NoBodyIsWholeAndCut, WholeBodiesSplitOneWay, WiresHaveOnePayload};
ghost use Rattle.capture.specs.CutLaws.{CutResponsesNeedBody, EndedBodiesAreCut};
ghost use Rattle.capture.specs.GrowthLaws.{GrowsFromItself, GrowthGoesOn, GrowthKeepsCaptures, GrowthKeepsPayloads};
ghost use Rattle.capture.specs.HeadLaws.{RequestHeadsEnd, ResponseHeadsEnd, SectionsEnd};
ghost use Rattle.capture.specs.declared.limits.TheConstants.{BODY_LIMIT, FIELD_LIMIT, HEAD_LIMIT, INTERIM_LIMIT, SIZE_LINE_LIMIT};

/// A head that begins with its first line ends exactly at the first empty line, whatever follows, and so does a
/// trailer section (RFC 9112, sections 2.1 and 7.1.2).
pub fn heads_end_at_the_first_empty_line()
    ensures requests { RequestHeadsEnd }
    ensures responses { ResponseHeadsEnd }
    ensures sections { SectionsEnd }
{}

/// A chunked body splits in one way, whole or cut, and none is both (RFC 9112, section 7.1).
pub fn chunked_bodies_split_one_way()
    ensures whole { WholeBodiesSplitOneWay }
    ensures cut { CutBodiesSplitOneWay }
    ensures apart { NoBodyIsWholeAndCut }
{}

/// Each wire, whole or cut, has one payload.
pub fn wires_have_one_payload()
    ensures one { WiresHaveOnePayload }
    ensures whole { BodiesHaveAPayload }
    ensures cut { CutWiresHaveAPayload }
{}

/// A capture has one payload by its number, also where another capture keeps it.
pub fn captures_have_one_payload()
    ensures { CapturesHaveOnePayload }
{}

/// A book that has grown keeps its captures, with their numbers and payloads, and those that it gained stand behind
/// them. Growth begins with the book itself and goes on from step to step.
pub fn growth_keeps_captures()
    ensures keeps { GrowthKeepsCaptures }
    ensures payloads { GrowthKeepsPayloads }
    ensures itself { GrowsFromItself }
    ensures steps { GrowthGoesOn }
{}

/// A response that was cut is what a stream holds that ended where more of its body was needed: each such response is
/// one of which more of the body is needed, and each such stream holds one.
pub fn ended_bodies_are_cut()
    ensures needs_body { CutResponsesNeedBody }
    ensures holds_cut { EndedBodiesAreCut }
{}

/// What the limits are that the definitions speak of: the bytes and the field lines of a head or of a trailer section,
/// the bytes of a body (64 MiB) and of a chunk's size line, and how many interim responses are dropped.
pub fn limits_are_these()
    ensures head { HEAD_LIMIT ≡ 65536 }
    ensures fields { FIELD_LIMIT ≡ 128 }
    ensures body { BODY_LIMIT ≡ 64 * 1024 * 1024 }
    ensures size_line { SIZE_LINE_LIMIT ≡ 1024 }
    ensures interims { INTERIM_LIMIT ≡ 8 }
{}
