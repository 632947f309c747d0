//! What holds of any file.
ghost use Rattle.journal.specs.Laws.{WhatWasWrittenIsRead, BytesHoldOneList, ACutFileHoldsItsFirstRecords, WhatStandsBehindLosesNothing};

/// What was written is read back, in its order.
pub fn what_was_written_is_read()
    ensures { WhatWasWrittenIsRead }
{}

/// Bytes hold one list of records alone: so what [`crate::records`] finds is fixed.
pub fn bytes_hold_one_list()
    ensures { BytesHoldOneList }
{}

/// A file that a crash cut anywhere holds the first of its records: all those that were whole before the cut.
pub fn a_cut_file_holds_its_first_records()
    ensures { ACutFileHoldsItsFirstRecords }
{}

/// Whatever stands behind what was written, all of that is read, and what stands behind is read as if it stood alone.
pub fn what_stands_behind_loses_nothing()
    ensures { WhatStandsBehindLosesNothing }
{}
