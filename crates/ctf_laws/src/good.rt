//! Laws of good libraries: their slots and publications break no rule, each parent has the types
//! that its child names, each draft is sound, and its slot has what its last update wrote.
ghost use Rattle.ctf_laws.specs.GoodLaws.{
  AnswersAreOfWhatIsDenoted,
  BytesDenoteWhatWasAdded,
  ChecksAcceptWhatKeepsEveryRule,
  ChecksRefuseByTheFirstRule,
  FoundIsFaultless,
  LinesFit,
  LoadsKeepGood,
  NothingIsGood,
  OpensAcceptWhatKeepsEveryRule,
  OpensRefuseByTheFirstRule,
  OwnRunsStayGood,
  RunsKeepGood,
  SlotsDenote,
  StepsKeepGood,
  UpdatesDenoteTheDraft,
};
ghost use Rattle.ctf_laws.specs.Replied.{RunsReplyRightly};
ghost use Rattle.ctf_laws.specs.Right.{RightIsOne};

/// An empty library is good, and each request keeps a good library good. So all libraries are good
/// after any run, whatever sessions ask, in any order, and wherever memory is refused.
pub fn libraries_stay_good()
    ensures empty { NothingIsGood }
    ensures step { StepsKeepGood }
    ensures load { LoadsKeepGood }
    ensures found { FoundIsFaultless }
    ensures runs { RunsKeepGood }
    ensures own { OwnRunsStayGood }
    ensures lines { LinesFit }
{}

/// The lists of a good slot denote exactly one dictionary, and so do those of its parent; each
/// question is answered from these two.
pub fn answers_are_of_what_is_denoted()
    ensures there { SlotsDenote }
    ensures answers { AnswersAreOfWhatIsDenoted }
{}

/// What is opened or checked is refused by the first rule that it breaks, and for no other reason
/// than that all slots are in use; what is accepted breaks no rule.
pub fn stages_are_judged()
    ensures refused { ChecksRefuseByTheFirstRule }
    ensures accepted { ChecksAcceptWhatKeepsEveryRule }
    ensures unopened { OpensRefuseByTheFirstRule }
    ensures opened { OpensAcceptWhatKeepsEveryRule }
{}

/// The bytes of an update denote all that was added to the draft and not discarded, in its order.
pub fn bytes_denote_what_was_added()
    ensures updates { UpdatesDenoteTheDraft }
    ensures added { BytesDenoteWhatWasAdded }
{}

/// Each reply of a run is right for the library as it was before the line. A question is answered
/// from the one dictionary that the lists of its slot denote. Lists are refused by the first rule
/// that they break, and what an update wrote denotes what its draft held.
pub fn runs_reply_rightly()
    ensures { RunsReplyRightly }
{}

/// Only one reply is right: the request and the library before it decide the reply and the library
/// after it.
pub fn right_is_one()
    ensures { RightIsOne }
{}
