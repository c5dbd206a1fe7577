//! The words for data models.
ghost use Rattle.std.specs.Prelude.{◌≡◌};
ghost use Rattle.ctf_protocol.specs.words.ModelNames.{model_named as model_of_word, name_of_model};

use ctf_model::DataModel;

/// The word for a data model.
pub fn model_name(model: DataModel) -> &'static str
    ensures { result.now ≡ name_of_model model }
{
    match model {
        DataModel::Lp64 => "lp64",
        DataModel::Ilp32 => "ilp32",
    }
}

/// The data model that a word names, if it names one.
pub fn model_named(word: &str) -> Option<DataModel>
    ensures { result ≡ model_of_word word.now }
{
    match word {
        "lp64" => Some(DataModel::Lp64),
        "ilp32" => Some(DataModel::Ilp32),
        _ => None,
    }
}
