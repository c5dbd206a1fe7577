//! Laws over the definitions alone. Each is the contract of a function that does nothing.
ghost use Rattle.ctf_model.specs.drafts.DraftLaws.{
  ChangesKeepSound,
  EnumeratorsKeepSound,
  LabelsKeepSound,
  LifeKeepsSound,
  MembersKeepSound,
  NewDraftsAreSound,
  PlacesAreNext,
  SoundDraftsMissNone,
  SoundDraftsNameShort,
  SoundDraftsStayUnder,
  TypesKeepSound,
};
ghost use Rattle.ctf_model.specs.figures.FigureLaws.{
  FaultlessValuesAreBounded,
  FiguresAskByValue,
  OwnFiguresAreTheirRules,
  ParentsFiguresAreTheirOwn,
};
ghost use Rattle.ctf_model.specs.figures.PathLaws.{FiguresAreTheirRules, StepsAreTheirRules};
ghost use Rattle.ctf_model.specs.format.Laws.{
  ComputesWhatIsDenoted,
  DenotesOne,
  FaultlessWhereDenoted,
  FirstFaultIsTheLeast,
  NoRecordBeginsAnother,
  OneCut,
  RecordsAreACut,
  SectionSpellsOneList,
  SpellsWhatIsRead,
};
ghost use Rattle.ctf_model.specs.names.NameLaws.{NamesAreTheirRules, NamesAskByDeclarator};
ghost use Rattle.ctf_model.specs.rules.ChainLaws.{ChainsAreShort, FaultlessChainsAreShort};
ghost use Rattle.ctf_model.specs.values.ValueLaws.{ValuesAreTheirRules};
ghost use Rattle.ctf_model.specs.writing.WritingLaws.{
  BytesAreJudgedAlike,
  NamesAreFoundAgain,
  RecordsSpell,
  WrittenDenotes,
  WrittenIsChild,
  WrittenIsImported,
};

/// No whole record is the beginning of another.
pub fn no_record_begins_another()
    ensures { NoRecordBeginsAnother }
{}

/// A record spells exactly the type that reading its fields gives.
pub fn records_spell_what_is_read()
    ensures { SpellsWhatIsRead }
{}

/// A section spells at most one list of types.
pub fn section_spells_one_list()
    ensures { SectionSpellsOneList }
{}

/// Reading record by record gives the whole records, and then the fault of what is left.
pub fn records_are_a_cut()
    ensures read { RecordsAreACut }
    ensures one { OneCut }
{}

/// The first fault is the least broken rule, at its least place; if there is no fault, no rule is
/// broken.
pub fn first_fault_is_the_least()
    ensures { FirstFaultIsTheLeast }
{}

/// Lists denote a dictionary exactly if they have no fault, and then exactly one: the dictionary
/// that is computed.
pub fn faultless_exactly_where_denoted()
    ensures denoted { FaultlessWhereDenoted }
    ensures one { DenotesOne }
    ensures computed { ComputesWhatIsDenoted }
{}

/// In a dictionary that breaks no rule, the size, alignment and resolved type of each own type
/// follow from those of other types by their rules. The bound on chains in their definitions is
/// never reached.
pub fn own_figures_are_their_rules()
    ensures asked { FiguresAskByValue }
    ensures bounded { FaultlessValuesAreBounded }
    ensures rules { OwnFiguresAreTheirRules }
{}

/// A parent's type has the same size, alignment and resolved type in a child's space as in the
/// parent alone.
pub fn parents_figures_are_their_own()
    ensures { ParentsFiguresAreTheirOwn }
{}

/// A new draft is sound, and additions, discards and updates keep a draft sound, in any order,
/// whether they are refused or not.
pub fn drafts_are_sound()
    ensures created { NewDraftsAreSound }
    ensures types { TypesKeepSound }
    ensures members { MembersKeepSound }
    ensures enumerators { EnumeratorsKeepSound }
    ensures labels { LabelsKeepSound }
    ensures life { LifeKeepsSound }
    ensures changes { ChangesKeepSound }
{}

/// A sound draft names only types that exist, so its dictionary keeps the rule of references and
/// can be imported over the draft's parent.
pub fn sound_drafts_stay_under_their_parents()
    ensures missing { SoundDraftsMissNone }
    ensures short { SoundDraftsNameShort }
    ensures under { SoundDraftsStayUnder }
{}

/// A member without a stated offset begins at the next offset that its alignment allows.
pub fn members_stand_next()
    ensures { PlacesAreNext }
{}

/// In a dictionary that breaks no rule, alone or over a parent that breaks none, a chain of types
/// visits at most 513 types of each: by the steps of values, sizes and paths, and by those of
/// declarators.
pub fn chains_are_short()
    ensures faultless { FaultlessChainsAreShort }
    ensures short { ChainsAreShort }
{}

/// If chains are that short, the text of a value is what its rule says of the values in it: the
/// bound on the length of chains changes none, so a recursion of that depth reaches all values.
pub fn values_are_their_rules()
    ensures { ValuesAreTheirRules }
{}

/// If chains are that short, the spelled name of each type is what its rule says of the types that
/// it refers to: the bound on layers changes none.
pub fn names_are_their_rules()
    ensures asked { NamesAskByDeclarator }
    ensures rules { NamesAreTheirRules }
{}

/// If chains are that short, each step of a path, each size and alignment, and the type that each
/// type resolves to are what their rules say: the bound on the length of chains changes none.
pub fn paths_are_their_rules()
    ensures figures { FiguresAreTheirRules }
    ensures steps { StepsAreTheirRules }
{}

/// A written name is found at its reference, and a written record spells its type: in the short
/// form and in the long one, for every kind.
pub fn written_records_spell()
    ensures names { NamesAreFoundAgain }
    ensures records { RecordsSpell }
{}

/// The written bytes of a sound draft denote what it holds and nothing else, are those of a child
/// exactly if it has a parent, and can then be imported over that parent. A fault that would keep
/// the draft from being written is the fault of its bytes.
pub fn written_bytes_denote()
    ensures denoted { WrittenDenotes }
    ensures child { WrittenIsChild }
    ensures imported { WrittenIsImported }
    ensures alike { BytesAreJudgedAlike }
{}
