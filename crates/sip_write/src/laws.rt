//! What holds of the written texts.
ghost use Rattle.sip_write.specs.AnswerAgain.{AnswerIsReadAgain};
ghost use Rattle.sip_write.specs.NoticeRead.{NotifyToWhomWasReadIsReadAgain};
ghost use Rattle.sip_write.specs.ReadAgain.{NotifyIsReadAgain, NotifyFixesItsValues, TopViaIsReadAgain};
ghost use Rattle.sip_write.specs.RequestRead.{WhatIsReadIsInItsGrammar, AnswerToWhatWasReadIsReadAgain};
ghost use Rattle.sip_write.specs.Laws.{CutsIntoParameters, TellsItsParameter};

/// A Via value in its grammar (RFC 3261 section 20.42) is cut into its parameters: the pieces that
/// [`write_response`](crate::write_response) copies, marks or leaves out are the parameters that a reader finds.
pub fn via_values_are_cut_into_their_parameters()
    ensures { CutsIntoParameters }
{}

/// A piece of a Via value is left out, or gets the source port, by the name and the value of the parameter that a reader finds there.
pub fn pieces_tell_the_names_of_their_parameters()
    ensures { TellsItsParameter }
{}

/// A written NOTIFY whose values are in their grammars and that fits in a datagram is read as the request with its values.
pub fn a_notify_is_read_again()
    ensures { NotifyIsReadAgain }
{}

/// The bytes of a NOTIFY in whose values no CR stands, and whose event and state are in their grammars, fix its number, its event, its
/// state and its body.
pub fn a_notify_fixes_its_values()
    ensures { NotifyFixesItsValues }
{}

/// The top Via of an answer is read as a Via value with the sent-by and the branch of the request's.
pub fn a_top_via_is_read_again()
    ensures { TopViaIsReadAgain }
{}

/// A written answer whose values are in their grammars and that fits in a datagram is read as a response with the same status and the
/// request's head, in which the top Via says the source and a To without a tag has the one that was given.
pub fn an_answer_is_read_again()
    ensures { AnswerIsReadAgain }
{}

/// What an answer or a NOTIFY copies of a request that was read stands in header lines, each value in its grammar.
pub fn what_is_read_is_in_its_grammar()
    ensures { WhatIsReadIsInItsGrammar }
{}

/// A written answer to a request that was read is read, where it fits in a datagram and what it adds is in its grammar, as a
/// response with the same status and the request's head, in which the top Via says the source and a To without a tag has got one.
pub fn an_answer_to_what_was_read_is_read_again()
    ensures { AnswerToWhatWasReadIsReadAgain }
{}

/// A written NOTIFY of a dialog that a request made which was read is read, where it fits in a datagram and what it adds is in its
/// grammar, as the request with its values to whom the dialog is with.
pub fn a_notify_to_whom_was_read_is_read_again()
    ensures { NotifyToWhomWasReadIsReadAgain }
{}
