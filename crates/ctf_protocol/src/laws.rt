//! Laws over the definitions of answers and texts. Each is the contract of a function that does
//! nothing.
ghost use Rattle.ctf_protocol.specs.answers.KeyOrder.{KeysRise};
ghost use Rattle.ctf_protocol.specs.lines.TextLaws.{LinesHaveTheText, TextsAreReadBack};
ghost use Rattle.ctf_protocol.specs.sessions.OpenLaws.{FiguresAreAsked, StepsAreMade, TypesAreAsked, WholesAreAsked};

/// The keys of each answer, and of each object in it, are in byte order, for every question and
/// every library.
pub fn keys_rise()
    ensures { KeysRise }
{}

/// A list of bytes is spelled by its own text: by the text in a line, once the JSON is read.
pub fn texts_are_read_back()
    ensures line { LinesHaveTheText }
    ensures read { TextsAreReadBack }
{}

/// A word on a slot gets the answer of the same question to the open dictionary in the slot, under
/// the word's keys; and a step of the slot's draft is that of the open dictionary. A call in
/// process answers the same.
pub fn words_ask_what_is_open()
    ensures types { TypesAreAsked }
    ensures figures { FiguresAreAsked }
    ensures wholes { WholesAreAsked }
    ensures steps { StepsAreMade }
{}
