//! Reads the data model of a request.
ghost use Rattle.std.specs.Prelude.{◌≡◌};
ghost use Rattle.ctf_json.specs.Values.{line_data as view};
ghost use Rattle.ctf_protocol.specs.lines.Ask.{model_asked as model_said};

use ctf_json::{Line, as_str, get};
use ctf_protocol::{DataModel, model_named};

/// The data model, if one is said.
pub(crate) fn model(line: &Line<'_>) -> Option<Option<DataModel>>
    ensures { result ≡ model_said (view line.now) }
{
    match get(line, "model") {
        None => Some(None),
        Some(said) => Some(Some(model_named(as_str(&said)?)?)),
    }
}
