// The output, by way of a buffer that is written out where it is full.
ghost use Rattle.std.specs.Prelude.{◌≡◌, [], ◌∷◌, replicate};
ghost use Rattle.replay_print.specs.Out.{Prints, out_of, waits};

use std::io::Write;

// The output that waits to be written, and where to. Any place may be the free one: at one past the buffer it is full.
// A promise speaks of what waits, and not of where it is written. Stays without a model, so that it, and what holds it,
// can be copied where the writer can.
#[derive(Clone, Copy, Drop)]
pub struct Out<W> {
    pub to: W,
    pub buf: [u8; 65536],
    pub at: usize,
}

// Stays printing by methods, with no `Display` and `write!`: what those write is promised only where they answer `Ok`,
// and each text here is promised on every call (`Prints`).
impl<W: Write> Out<W> {
    pub fn new(to: W) -> Self
        ensures { waits result ≡ out_of (replicate 65536 0) 0 }
    {
        Out {
            to,
            buf: [0; 65536],
            at: 0,
        }
    }

    // What waits, written out. Whether that succeeds changes nothing here. It stays apart, so that laying a byte, which
    // mostly writes nothing out, stays short.
    #[cold]
    #[inline(never)]
    fn flush(&mut self)
        ensures { waits self.new ≡ waits self.old }
    {
        if self.at <= self.buf.len() {
            let _ = self.to.write_all(&self.buf[..self.at]);
        }
    }

    // One byte.
    #[tactic(auto, unfolding(crate::specs::Out::put_of, crate::specs::Out::laid_of))]
    pub fn put(&mut self, b: u8)
        ensures { Prints self.old self.new (b ∷ []) }
    {
        if self.buf.len() <= self.at {
            self.flush();
            self.at = 0;
        }
        self.buf[self.at] = b;
        self.at += 1;
    }

    // The bytes of a text.
    #[tactic(auto, using(crate::proofs::Laws::laid_next), unfolding(crate::specs::Out::laid_of))]
    pub fn text(&mut self, s: &[u8])
        ensures { Prints self.old self.new s.now }
    {
        for b in s {
            self.put(*b);
        }
    }

    // What still waits, written out at the end. It goes on waiting: a second call writes it out again.
    pub fn finish(&mut self)
        ensures { waits self.new ≡ waits self.old }
    {
        self.flush();
    }
}
