// Laws of the definitions, for proofs of the crates above: their calls do nothing.
ghost use Rattle.std.specs.Prelude.{◌≡◌, ℕ, List, ◌++◌, ◌-◌, ◌%◌, ◌<◌, ◌↔◌, All, length, drop, slice_index, Ok};
ghost use Rattle.ikl_base.specs.declared.address.Addr.TheVariants.{V4};
ghost use Rattle.ip_packet.specs.declared.outer.Outer.{Outer};
ghost use Rattle.ip_packet.specs.Field.{number_at};
ghost use Rattle.ip_packet.specs.Outer.{AreOneFamily, outer_header, outer_view, header_size};
ghost use Rattle.ip_packet.specs.Ipv4.{words_sum, ones_sum, sum_for};
ghost use Rattle.ip_packet.specs.Ipv6.{upper_of, upper_step, extension_length};
ghost use Rattle.ip_packet.specs.Ttl.{with_ttl};
ghost use Rattle.ip_packet.specs.View.{view_of};

/// What the header before sealed octets says with them.
pub fn sealed_view()
    ensures view { (o : Outer) (payload : List ℕ) → AreOneFamily o.src o.dst → length payload ≡ o.payload
        → view_of (outer_header o ++ payload) ≡ Ok (outer_view o payload) }
    ensures size { (o : Outer) → AreOneFamily o.src o.dst → length (outer_header o) ≡ header_size o.src }
    ensures id { (o : Outer) (src dst payload : List ℕ) → o.src ≡ V4 src → o.dst ≡ V4 dst → number_at (outer_header o ++ payload) 4 ≡ o.id }
{}

/// Another time to live or hop limit keeps what a packet says.
pub fn ttl_keeps_view()
    ensures { (ttl : ℕ) (o : List ℕ) → view_of (with_ttl ttl o) ≡ view_of o }
{}

/// The walk over the extension headers of IPv6 goes on from one to the next until there is none.
pub fn extension_headers()
    ensures { (next : ℕ) (o : List ℕ) → upper_of next o ≡ upper_step next o (upper_of (slice_index o 0) (drop (extension_length o) o)) }
{}

/// A sum of words that is a multiple of 2^16 - 1 is a ones' complement sum of all ones, and the sum that is written is its
/// complement (RFC 1071 section 1).
pub fn header_sums()
    ensures checked { (o : List ℕ) → All (λ x. x < 256) o → 0 < words_sum o → (ones_sum o ≡ 65535) ↔ (words_sum o % 65535 ≡ 0) }
    ensures written { (o : List ℕ) → All (λ x. x < 256) o → 0 < words_sum o → sum_for o ≡ 65535 - ones_sum o }
{}
