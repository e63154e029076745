// A local buffer, for a form before its length is judged and for variants before equal ones merge: of 255 bytes, fifty
// variants of four bytes may each become eight.
ghost use Rattle.std.specs.Prelude.{◌≡◌, length};

pub fn buffer() -> [u8; 512]
    ensures { length result ≡ 512 }
{
    [0u8; 512]
}
