// The listing program: one medium from standard input, its listing to standard output. All that it says is `listing_text::listing`.
#![tactic(auto)]

// The image is one byte longer than the largest medium, so that an overlong one is seen and refused. `io` fills a slice and answers how much
// of it, and only that is handed on.
fn main() {
    let mut image = [0; 40993];
    let got = io::read_full(0, &mut image);
    let text = listing_text::listing(&mut image[..got]);
    io::write_all(1, text.bytes());
}
