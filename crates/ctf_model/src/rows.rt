//! Worked rows: what the definitions say of small inputs. Each is the contract of a function that
//! does nothing.
ghost use Rattle.ctf_model.specs.drafts.DraftRows.{
  DraftsLive,
  EnumeratorsAndLabelsAreAdded,
  MembersAreAdded,
  MembersArePlaced,
  TypesAreAdded,
};
ghost use Rattle.ctf_model.specs.dumps.DumpRows.{DumpsAre};
ghost use Rattle.ctf_model.specs.rules.FaultRows.{ConstantsAreCodes};
ghost use Rattle.ctf_model.specs.names.FindRows.{NamesAreFound};
ghost use Rattle.ctf_model.specs.figures.FigureRows.{FiguresAre, FiguresOverParents, PathsLead};
ghost use Rattle.ctf_model.specs.spaces.ImportRows.{ImportsAreJudged};
ghost use Rattle.ctf_model.specs.format.KindRows.{ArgumentsAreNamed, KindsDenote, KindsHaveFaults};
ghost use Rattle.ctf_model.specs.names.NameRows.{NamesAreSpelled, NamesOverParents};
ghost use Rattle.ctf_model.specs.symbols.SymbolRows.{SymbolsHaveFaults, SymbolsTell};
ghost use Rattle.ctf_model.specs.values.ValueRows.{ValuesShow, ValuesOverParents};
ghost use Rattle.ctf_model.specs.writing.WritingRows.{DictionariesAreWritten, NamesAreWritten, RecordsAreWritten};
ghost use Rattle.ctf_model.specs.format.Rows.{BytesDenote, BytesHaveFaults, ListsAreLong, NumbersName};

/// The code of each fault, by its name.
pub fn faults_have_codes()
    ensures { ConstantsAreCodes }
{}

/// Which dictionary serves as the parent of another.
pub fn imports_are_judged()
    ensures { ImportsAreJudged }
{}

/// What bytes of a few types denote.
pub fn bytes_denote()
    ensures { BytesDenote }
{}

/// The first fault of bytes, at its place.
pub fn bytes_have_faults()
    ensures { BytesHaveFaults }
{}

/// Which types the arguments of functions name.
pub fn arguments_are_named()
    ensures { ArgumentsAreNamed }
{}

/// What records of each kind denote.
pub fn kinds_denote()
    ensures { KindsDenote }
{}

/// The first fault of records of other kinds than integers.
pub fn kinds_have_faults()
    ensures { KindsHaveFaults }
{}

/// What a dictionary says of symbols, and what it answers.
pub fn symbols_tell()
    ensures { SymbolsTell }
{}

/// The first fault of entries and of a symbol table.
pub fn symbols_have_faults()
    ensures { SymbolsHaveFaults }
{}

/// The lengths of the lists after heads.
pub fn lists_are_long()
    ensures { ListsAreLong }
{}

/// Which type a number names, in a child and elsewhere.
pub fn numbers_name()
    ensures { NumbersName }
{}

/// The sizes and alignments of types, and the types that they resolve to.
pub fn figures_are()
    ensures { FiguresAre }
{}

/// The same for types over a parent.
pub fn figures_over_parents()
    ensures { FiguresOverParents }
{}

/// What names find, and which types are pointers to others.
pub fn names_are_found()
    ensures { NamesAreFound }
{}

/// Where paths lead.
pub fn paths_lead()
    ensures { PathsLead }
{}

/// How C spells the names of types.
pub fn names_are_spelled()
    ensures { NamesAreSpelled }
{}

/// The same over a parent, and without a parent that is needed.
pub fn names_over_parents()
    ensures { NamesOverParents }
{}

/// The contents of new drafts, and of drafts after discards and updates.
pub fn drafts_live()
    ensures { DraftsLive }
{}

/// Which types a draft takes, and which numbers these get.
pub fn types_are_added()
    ensures { TypesAreAdded }
{}

/// Which members a draft takes, and why it refuses others.
pub fn members_are_added()
    ensures { MembersAreAdded }
{}

/// The offsets of members that state none, and the sizes of their structs.
pub fn members_are_placed()
    ensures { MembersArePlaced }
{}

/// Which enumerators and labels a draft takes.
pub fn enumerators_and_labels_are_added()
    ensures { EnumeratorsAndLabelsAreAdded }
{}

/// What values of each kind show, or why not.
pub fn values_show()
    ensures { ValuesShow }
{}

/// What values of a child's and its parent's types show.
pub fn values_over_parents()
    ensures { ValuesOverParents }
{}

/// The text of dictionaries as they are dumped.
pub fn dumps_are()
    ensures { DumpsAre }
{}

/// The bytes of small dictionaries, and why some drafts are not written.
pub fn dictionaries_are_written()
    ensures { DictionariesAreWritten }
{}

/// Which strings are written, and where names begin in them.
pub fn names_are_written()
    ensures { NamesAreWritten }
{}

/// The record of each kind of type, in each form.
pub fn records_are_written()
    ensures { RecordsAreWritten }
{}
