//! Laws over the definitions: functions that do nothing, each with a law as its contract.

ghost use Rattle.warc_payload.specs.Laws.{AtMostOneHead, AtMostOneInfo, FrontHasHead, FrontHasNoHead, AtMostOneBody, NoBodyWhereCoded, OneOfThree};

/// A text begins with at most one head, so the head, what follows it and all that a head says
/// are functions of the text's bytes.
pub fn at_most_one_head()
    ensures { AtMostOneHead }
{}

/// Status, length and coded are functions of the text's bytes.
pub fn at_most_one_info()
    ensures { AtMostOneInfo }
{}

/// What is said of the first 65,536 bytes of a block is said of the whole block.
pub fn front_has_head()
    ensures { FrontHasHead }
{}

/// A block whose first 65,536 bytes have no head has none.
pub fn front_has_no_head()
    ensures { FrontHasNoHead }
{}

/// A block gives at most one body.
pub fn at_most_one_body()
    ensures { AtMostOneBody }
{}

/// A block never gives both a body and a coded one.
pub fn no_body_where_coded()
    ensures { NoBodyWhereCoded }
{}

/// Each block gives a body after its HTTP head, or a coded one, or has no such head. By the other laws it is only one
/// of these.
pub fn one_of_three()
    ensures { OneOfThree }
{}
