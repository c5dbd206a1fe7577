//! Answers about an open dictionary in all: its parent's name, its symbols and labels.
ghost use Rattle.std.specs.Prelude.{◌≡◌, ◌≤◌, length, slice_get, take};
ghost use Rattle.std.specs.Result.{result_map_both};
ghost use Rattle.ctf_model.specs.opened.Questions.{label_at, named_answered};
ghost use Rattle.ctf_model.specs.opened.Open.{own_in};
ghost use Rattle.ctf_entries.specs.FunctionView.{signature};
ghost use Rattle.ctf_model.specs.declared.faults.TheConstants.Fault.{NO_MEMBER};
ghost use Rattle.ctf_model.specs.format.Shown.{named_arguments};
ghost use Rattle.ctf_model.specs.symbols.SymbolQuestions.{function_of, name_of_symbol, or_refused};
ghost use Rattle.ctf_views.specs.ItemsView.{label as label_view};

use crate::loading::Loaded;
use crate::open_dictionary::OpenDictionary;
use ctf_entries::Signature;
use ctf_model::{DataModel, Fault, TypeNum, placeless};
use ctf_symbols::symbol_name;
use ctf_views::{Args, Label, is_variadic};

/// How many arguments are named: all but a last 0.
pub fn named_count(args: &Args<'_>) -> usize
    ensures { result ≡ length (named_arguments args.now) }
{
    if is_variadic(args) {
        args.len() - 1
    } else {
        args.len()
    }
}

/// A named argument, counted from 0.
fn argument_type(args: Args<'_>, index: usize) -> Result<TypeNum, Fault>
    ensures { result_map_both (λ t. t.0) (λ f. f) result
        ≡ or_refused NO_MEMBER (slice_get (named_arguments args.entry) index) }
{
    if index >= named_count(&args) {
        return Err(placeless(Fault::NO_MEMBER));
    }
    match args.get(index) {
        Some(argument) => Ok(argument),
        None => Err(placeless(Fault::NO_MEMBER)),
    }
}

impl OpenDictionary {
    /// The name of its parent, in its header.
    pub fn parname(&self) -> &[u8]
        ensures { result.now ≡ (own_in self.now).parname }
    {
        self.dictionary().parname()
    }

    /// The label of its parent, in its header.
    pub fn parlabel(&self) -> &[u8]
        ensures { result.now ≡ (own_in self.now).parlabel }
    {
        self.dictionary().parlabel()
    }

    /// The data model of its program.
    pub fn model(&self) -> DataModel
        ensures { result ≡ self.now.own.model }
    {
        self.own.model()
    }

    /// The dictionary, which others may share.
    pub fn own(&self) -> &Loaded
        ensures { result.now ≡ self.now.own }
    {
        &self.own
    }

    /// How many labels it has.
    pub fn label_count(&self) -> u64
        ensures { result ≡ length (own_in self.now).labels }
    {
        self.dictionary().labels().len() as u64
    }

    /// A label, counted from 0. Its name is borrowed.
    pub fn label_numbered(&self, index: usize) -> Result<Label<'_>, Fault>
        ensures { result_map_both label_view (λ f. f) result
            ≡ label_at index (own_in self.now).labels }
    {
        match self.dictionary().labels().get(index) {
            Some(label) => Ok(label),
            None => Err(placeless(Fault::NO_LABEL)),
        }
    }

    /// The name of a symbol of the program, by its number.
    pub fn symbol_name(&self, number: u32) -> Result<&[u8], Fault>
        ensures { result_map_both (λ n. n.now) (λ f. f) result
            ≡ name_of_symbol (own_in self.now) number }
    {
        symbol_name(&self.dictionary(), number)
    }

    /// What a function of the program returns and takes, by the number of its symbol.
    pub fn function(&self, number: u32) -> Result<Signature<'_>, Fault>
        ensures { result_map_both signature (λ f. f) result
            ≡ function_of (own_in self.now) number }
    {
        self.symbols().function(&self.dictionary(), number)
    }

    /// A named argument of such a function, counted from 0.
    pub fn function_argument(&self, number: u32, index: usize) -> Result<TypeNum, Fault>
        ensures { result_map_both (λ t. t.0) (λ f. f) result
            ≡ named_answered index (function_of (own_in self.now) number) }
    {
        let function = self.function(number)?;
        argument_type(function.args, index)
    }
}
