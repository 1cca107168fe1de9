// "The customer desk's C host calls the text check directly": `reader`'s, as an archive of its own.
#![tactic(auto)]

ghost use Rattle.std.specs.Prelude.{◌≡◌};
ghost use Rattle.meaning.specs.Text.{read, packed};

#[unsafe(no_mangle)]
pub extern "C" fn text_check(text: &[u8]) -> u32
    ensures { result ≡ packed (read text.now) }
{
    reader::text_check(text)
}
