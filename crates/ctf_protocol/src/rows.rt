//! Worked rows: what the definitions say of small inputs. Each is the contract of a function that
//! does nothing.
ghost use Rattle.ctf_protocol.specs.sessions.DraftSlotRows.{DraftsAreAmongSlots, DraftsAreStepped, ModelsAreThoseStated};
ghost use Rattle.ctf_protocol.specs.sessions.EdgeRows.{DictionariesCount, LimitsHold, RefusalsAreInOrder};
ghost use Rattle.ctf_protocol.specs.sessions.MeetingRows.{MeetingsAreAsked, SessionsMeet};
ghost use Rattle.ctf_protocol.specs.sessions.ParentRows.{ParentsAreImported, SlotsAreClosed};
ghost use Rattle.ctf_protocol.specs.answers.QuestionRows.{PathsAreLines, QuestionsAreAnswered, QuestionsAreLines, TextsSpell};
ghost use Rattle.ctf_protocol.specs.words.WordRows.{WordsAreWritten};
ghost use Rattle.ctf_protocol.specs.sessions.SessionRows.{LinesAsk, LinesSay, OutputIs, SessionRuns};

/// How each word is written.
pub fn words_are_written()
    ensures { WordsAreWritten }
{}

/// The answers to questions on types.
pub fn questions_are_answered()
    ensures { QuestionsAreAnswered }
{}

/// The lines of questions and of their answers.
pub fn questions_are_lines()
    ensures { QuestionsAreLines }
{}

/// The names in a line with `path`.
pub fn paths_are_lines()
    ensures { PathsAreLines }
{}

/// Which bytes a text spells.
pub fn texts_spell()
    ensures { TextsSpell }
{}

/// The replies to a session, and its library afterwards.
pub fn session_runs()
    ensures { SessionRuns }
{}

/// Lines of replies, and how input is cut into lines.
pub fn lines_say()
    ensures { LinesSay }
{}

/// What lines ask.
pub fn lines_ask()
    ensures { LinesAsk }
{}

/// The output for two sessions, where memory is refused now and then.
pub fn output_is()
    ensures { OutputIs }
{}

/// The replies to imports, and which types a child finds then.
pub fn parents_are_imported()
    ensures { ParentsAreImported }
{}

/// What closing a slot and clearing the stage do.
pub fn slots_are_closed()
    ensures { SlotsAreClosed }
{}

/// The replies to sessions that publish and take.
pub fn sessions_meet()
    ensures { SessionsMeet }
{}

/// The lines of requests that publish and take.
pub fn meetings_are_asked()
    ensures { MeetingsAreAsked }
{}

/// What each limit lets through at its edge.
pub fn limits_hold()
    ensures { LimitsHold }
{}

/// Which of several refusals comes first.
pub fn refusals_are_in_order()
    ensures { RefusalsAreInOrder }
{}

/// What dictionaries count towards the quota.
pub fn dictionaries_count()
    ensures { DictionariesCount }
{}

/// Which data model a draft has.
pub fn models_are_those_stated()
    ensures { ModelsAreThoseStated }
{}

/// The replies to steps of drafts.
pub fn drafts_are_stepped()
    ensures { DraftsAreStepped }
{}

/// The replies to other requests on slots with drafts.
pub fn drafts_are_among_slots()
    ensures { DraftsAreAmongSlots }
{}
