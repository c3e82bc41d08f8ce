//! Members of objects.
ghost use Rattle.std.specs.Prelude.{◌≡◌, ◌++◌, ◌∷◌, [], OnOk};
ghost use Rattle.json.specs.Json.{string};
ghost use Rattle.json.specs.Token.{key, begin_array};
ghost use Rattle.json.specs.Tree.{json_tokens};
ghost use Rattle.report.specs.json_form.Values.{whole, scenario_value};
ghost use Rattle.report.specs.json_form.inside.Tokens.{member_tokens, nonzero_tokens};

use itoa::Buffer;
use json::{Pretty, Token};
use scenario_grammar::print;
use scenario_values::Scenario;
use std::alloc::{AllocError, Global};

/// A whole number.
pub fn write_whole(out: &mut Pretty, number: u64) -> Result<(), AllocError>
    ensures { OnOk result (out.new ≡ out.old ++ json_tokens (whole number)) }
{
    let mut digits = Buffer::new();
    out.token(Token::Number(digits.format(number)))
}

/// A member that is a whole number.
pub fn write_number(out: &mut Pretty, name: &str, number: u64) -> Result<(), AllocError>
    ensures { OnOk result (out.new ≡ out.old ++ member_tokens name.now (whole number)) }
{
    out.token(Token::Key(name))?;
    write_whole(out, number)
}

/// A member that is a count, unless it is 0.
pub fn write_nonzero(out: &mut Pretty, name: &str, number: u64) -> Result<(), AllocError>
    ensures { OnOk result (out.new ≡ out.old ++ nonzero_tokens name.now number) }
{
    if number == 0 {
        return Ok(());
    }
    write_number(out, name, number)
}

/// A member that is a text.
pub fn write_text(out: &mut Pretty, name: &str, text: &str) -> Result<(), AllocError>
    ensures { OnOk result (out.new ≡ out.old ++ member_tokens name.now (string text.now)) }
{
    out.token(Token::Key(name))?;
    out.token(Token::String(text))
}

/// A scenario.
pub fn write_scenario_value(
    alloc: Global,
    out: &mut Pretty,
    scenario: &Scenario,
) -> Result<(), AllocError>
    ensures { OnOk result (out.new ≡ out.old ++ json_tokens (scenario_value scenario.now)) }
{
    let text = print(alloc, scenario)?;
    out.token(Token::String(text.as_str()))
}

/// A member that is a scenario.
pub fn write_scenario(
    alloc: Global,
    out: &mut Pretty,
    name: &str,
    scenario: &Scenario,
) -> Result<(), AllocError>
    ensures { OnOk result (out.new ≡ out.old ++ member_tokens name.now (scenario_value scenario.now)) }
{
    out.token(Token::Key(name))?;
    write_scenario_value(alloc, out, scenario)
}

/// The beginning of a member that is a list.
pub fn begin_list(out: &mut Pretty, name: &str) -> Result<(), AllocError>
    ensures { OnOk result (out.new ≡ out.old ++ key name.now ∷ begin_array ∷ []) }
{
    out.token(Token::Key(name))?;
    out.token(Token::BeginArray)
}
