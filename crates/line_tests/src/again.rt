// A key's number leads back to it.
ghost use Rattle.std.specs.Prelude.{◌≡◌, Some};

use pending::key::Key;

pub fn again<K: Key>(key: &K) -> Option<K>
    ensures { result ≡ Some key.now }
{
    K::from_number(key.number())
}
