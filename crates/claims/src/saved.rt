// A saved text read back: the text claim of demand 2, said of the program.
ghost use Rattle.std.specs.Prelude.{◌≡◌};
ghost use Rattle.claims.specs.Texts.{resaved};

use hart::{Hart, Stepped};
use map::Map;
use text::Form;

// Saves the hart in a form and reads its text back. What comes back is the hart that was saved, with its map: a text loses nothing.
pub fn resaved(form: Form, hart: Hart, map: Map) -> Stepped
    ensures { result ≡ resaved form hart map }
{
    let state = hart.state;
    let words = <[u64; 43]>::from(state);
    let mut text = [0u8; 1094];
    let answer = hart.save(form, &mut text);
    if answer.refusal().is_some() {
        return Stepped { hart, map, answer };
    }
    let size = text::text_length(form);
    hart.restore(map, form, &text[0..size])
}
