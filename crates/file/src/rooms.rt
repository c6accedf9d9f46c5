// The lengths of an index's rooms, for the writer and the reader.
ghost use Rattle.std.specs.Prelude.{◌≡◌, ◌≤◌};
ghost use Rattle.file.specs.Index.{lengths_fit};

// Whether the rooms have their lengths: the order n, the labels n * W, the counts n.
pub fn lengths_fit(n: usize, w: usize, order: usize, labels: usize, counts: usize) -> bool
    requires { (n ≤ 4096) × (w ≤ 256) }
    ensures { result ≡ lengths_fit n w order labels counts }
{
    order == n && labels == n * w && counts == n
}
