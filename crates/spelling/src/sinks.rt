// What takes a text byte after byte: a buffer that is lent, which holds it, and a counter, which says how long it is.

ghost use Rattle.std.specs.Prelude.{◌≡◌, [], ◌∷◌, ◌+◌, ◌≤◌, ◌<◌, ◌^◌, List, ℕ, length, take, drop};
ghost use Rattle.fields.specs.Numbers.{decimal};
ghost use Rattle.spelling.specs.Sinks.{SinkLaws, Filled};
ghost use Rattle.std.proofs.Common.{refl, sym, ap, ◌∙◌, add-zero, append-nil, append_assoc, length-append, drop-drop, arith};

pub trait Sink {
    // There is room for a text.
    ghost can_take: { Self → List ℕ → Type 0 };

    // A text was taken, past all that was taken before.
    ghost took: { Self → List ℕ → Self → Type 0 };

    fn put_byte(&mut self, byte: u8)
        requires { can_take self.old (byte ∷ []) }
        ensures { took self.old (byte ∷ []) self.new };

    fn put_bytes(&mut self, bytes: &[u8])
        requires { can_take self.old bytes.now }
        ensures { took self.old bytes.now self.new };

    // A number, in decimal digits.
    fn put_number(&mut self, n: u32)
        requires { can_take self.old (decimal n) }
        ensures { took self.old (decimal n) self.new };

    ghost laws: { SinkLaws can_take took };
}

// What is taken is written from place `at` on.
#[derive(Drop)]
pub struct Buffer<'a> {
    pub bytes: &'a mut [u8],
    pub at: usize,
}

impl Sink for Buffer<'_> {
    ghost can_take = { λ b x. b.at + length x ≤ length b.bytes.now };

    ghost took = { Filled };

    ghost laws = { record {
      nothing = λ s. record { same_buffer = refl; same_length = refl; place = sym (add-zero s.at); front = sym (append-nil (take s.at s.bytes.now)); rest = refl };
      both = λ s t u x y p q.
          record {
            same_buffer = q.same_buffer ∙ p.same_buffer;
            same_length = q.same_length ∙ p.same_length;
            place = Prim.omega (arith, p.place, q.place, length-append x y);
            front = q.front ∙ Prim.rw p.front (append_assoc (take s.at s.bytes.now) x y);
            rest = q.rest ∙ Prim.rw q.place (sym (drop-drop (length y) t.at t.bytes.now) ∙ ap (drop (length y)) p.rest ∙ drop-drop (length y) t.at s.bytes.now);
          };
      first_room = λ s x y l. Prim.omega (arith, length-append x y);
      next_room = λ s t x y l p. Prim.omega (arith, length-append x y, p.place, p.same_length);
    } };

    fn put_byte(&mut self, byte: u8) {
        self.bytes[self.at] = byte;
        self.at += 1;
    }

    fn put_bytes(&mut self, bytes: &[u8]) {
        for i in 0..bytes.len() {
            self.bytes[self.at + i] = bytes[i];
        }
        self.at += bytes.len();
    }

    fn put_number(&mut self, n: u32) {
        self.at = crate::put_number(self.bytes, self.at, n);
    }
}

// What is taken is counted.
#[derive(Drop)]
pub struct Counter {
    pub count: usize,
}

impl Sink for Counter {
    ghost can_take = { λ c x. c.count + length x < 2 ^ 64 };

    ghost took = { λ c x d. d.count ≡ c.count + length x };

    ghost laws = { record {
      nothing = λ s. Prim.omega arith;
      both = λ s t u x y p q. Prim.omega (arith, length-append x y);
      first_room = λ s x y l. Prim.omega (arith, length-append x y);
      next_room = λ s t x y l p. Prim.omega (arith, length-append x y);
    } };

    fn put_byte(&mut self, _byte: u8) {
        self.count += 1;
    }

    fn put_bytes(&mut self, bytes: &[u8]) {
        self.count += bytes.len();
    }

    fn put_number(&mut self, n: u32) {
        self.count += crate::number_len(n);
    }
}
