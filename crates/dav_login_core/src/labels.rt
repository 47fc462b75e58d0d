//! Labels of networks, and of names from networks.
ghost use Rattle.std.specs.Prelude.{◌≡◌, ◌++◌, ℕ, List, take};
ghost use Rattle.std.specs.Int.{w64, from_le_bytes};
ghost use Rattle.sha2.specs.Hashers.{Holds256};
ghost use Rattle.dav_login_core.specs.Digests.{digest, with_length};
ghost use Rattle.dav_login_core.specs.Friends.{label_of_name};
ghost use Rattle.dav_login_core.specs.Networks.{network_bytes, label_of};

use crate::digests::add_counted;
use crate::networks::Network;
use sha2::{Digest, Sha256};

/// The label of a network under a key: the first 8 bytes of the SHA-256 of both. Who does not know the key finds no two networks with one label.
pub(crate) fn label_of(key: &[u8; 32], network: Network) -> u64
    ensures { result ≡ label_of key.now network }
{
    let mut hash = Sha256::new();
    hash.update(key);
    add_network(&mut hash, network);
    first_word(&hash.finalize())
}

/// The label of a name from a network under a key: the first 8 bytes of the digest of both.
pub(crate) fn label_of_name(key: &[u8; 32], network: Network, name: &str) -> u64
    ensures { result ≡ label_of_name key.now network name.now }
{
    first_word(&digest_of_name(key, network, name))
}

#[tactic(auto, unfolding(crate::specs::Digests::digest))]
fn digest_of_name(key: &[u8; 32], network: Network, name: &str) -> [u8; 32]
    ensures { result ≡ digest key.now (network_bytes network) name.now }
{
    let mut hash = Sha256::new();
    hash.update(key);
    add_counted_network(&mut hash, network);
    add_counted(&mut hash, name.as_bytes());
    hash.finalize()
}

fn add_counted_network(hash: &mut Sha256, network: Network)
    ensures { (m : List ℕ) → Holds256 hash.old m → Holds256 hash.new (m ++ with_length (network_bytes network)) }
{
    match network {
        Network::V4(octets) => add_counted(hash, &octets),
        Network::V6(octets) => add_counted(hash, &octets),
        Network::Unknown => add_counted(hash, &[]),
    }
}

fn add_network(hash: &mut Sha256, network: Network)
    ensures { (m : List ℕ) → Holds256 hash.old m → Holds256 hash.new (m ++ network_bytes network) }
{
    match network {
        Network::V4(octets) => hash.update(&octets),
        Network::V6(octets) => hash.update(&octets),
        Network::Unknown => {}
    }
}

// The first 8 bytes as a number, the lowest first.
fn first_word(sum: &[u8; 32]) -> u64
    ensures { result ≡ from_le_bytes w64 (take 8 sum.now) }
{
    u64::from_le_bytes([
        sum[0], sum[1], sum[2], sum[3], sum[4], sum[5], sum[6], sum[7],
    ])
}
