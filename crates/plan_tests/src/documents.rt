//! Documents with one board, whose releases are a chain, and their campaigns.
ghost use Rattle.std.specs.Prelude.{◌≡◌, length, IfOk};
ghost use Rattle.campaign_inputs.specs.Begin.{CanBegin};

use board_plugins::Flash;
use campaign_inputs::{ClientLimit, Ready, open_campaign};
use outer_traits::MemorySource;
use plugin_trait::Plugin;
use site_types::Campaign;
use std::alloc::Global;
use std::test::Fail;

/// A board of version 1.0.0, and the releases 1.1.0 and 1.2.0, of which the second requires the first.
pub(crate) const TWO: &str = r#"{"format":1,"machine":{"daemon":"1.9.5","pool":16},"components":[
{"id":"com.example.hub","provides":["2082b5e0-7a64-478a-b1b2-e3404fab6dad"],"releases":[{"version":"1.1.0","sha256":"9770ab3285028befb05af65f2ad3bd2d36afb87626032bc8a9ac195219be71d7","size":14},{"version":"1.0.0","sha256":"c9a69fece8c4c54b1942720921d0cc74b307337503b677c013941c03278e2c46","size":14}]},
{"id":"com.example.next","provides":["2082b5e0-7a64-478a-b1b2-e3404fab6dad"],"requires":[{"tag":"firmware","compare":"ge","version":"1.1.0"}],"releases":[{"version":"1.2.0","sha256":"527270b4067df662ba25a760c4eca00c4598abc9566cac5fb7fb79adc6dd498b","size":14}]}],
"boards":[{"port":"usb1","physical":"usb-1","plugin":"flash","instance-ids":["2082b5e0-7a64-478a-b1b2-e3404fab6dad"],"flags":["updatable"],"version-format":"triplet","image":"EMU1 01000000\n"}],
"clients":[{}],"boots":[{"time":1000}]}"#;

/// The same board, and the releases 1.1.0 to 1.8.0, of which each requires the one before it.
pub(crate) const EIGHT: &str = r#"{"format":1,"machine":{"daemon":"1.9.5","pool":16},"components":[
{"id":"com.example.c8","provides":["2082b5e0-7a64-478a-b1b2-e3404fab6dad"],"requires":[{"tag":"firmware","compare":"ge","version":"1.7.0"}],"releases":[{"version":"1.8.0","sha256":"a7d898fd32c984918eeec1631edb2d0617bbe28fd62173e126d98ed621f474ae","size":14}]},
{"id":"com.example.c7","provides":["2082b5e0-7a64-478a-b1b2-e3404fab6dad"],"requires":[{"tag":"firmware","compare":"ge","version":"1.6.0"}],"releases":[{"version":"1.7.0","sha256":"e2e605656ce7ce6fa8c8f3e4742824a69043e25960b0bf35d53611e2365e8934","size":14}]},
{"id":"com.example.c6","provides":["2082b5e0-7a64-478a-b1b2-e3404fab6dad"],"requires":[{"tag":"firmware","compare":"ge","version":"1.5.0"}],"releases":[{"version":"1.6.0","sha256":"ab8e8d1d974513c562171e3181c3bd50bb08e4aee7b867cd51d8c032d22142e0","size":14}]},
{"id":"com.example.c5","provides":["2082b5e0-7a64-478a-b1b2-e3404fab6dad"],"requires":[{"tag":"firmware","compare":"ge","version":"1.4.0"}],"releases":[{"version":"1.5.0","sha256":"39e0405caf020c074a6dd61a07573056eaec181d4dfb30f8dff81e98781731ff","size":14}]},
{"id":"com.example.c4","provides":["2082b5e0-7a64-478a-b1b2-e3404fab6dad"],"requires":[{"tag":"firmware","compare":"ge","version":"1.3.0"}],"releases":[{"version":"1.4.0","sha256":"f6b1d48bc5baa44b3131338ab67ffe0f41b22362c11df1dc4c3f8a91cea30c59","size":14}]},
{"id":"com.example.c3","provides":["2082b5e0-7a64-478a-b1b2-e3404fab6dad"],"requires":[{"tag":"firmware","compare":"ge","version":"1.2.0"}],"releases":[{"version":"1.3.0","sha256":"8b94061c583a4e871dd53b1ea536fb3b089a033ee04bb824287384c25871c64b","size":14}]},
{"id":"com.example.c2","provides":["2082b5e0-7a64-478a-b1b2-e3404fab6dad"],"requires":[{"tag":"firmware","compare":"ge","version":"1.1.0"}],"releases":[{"version":"1.2.0","sha256":"527270b4067df662ba25a760c4eca00c4598abc9566cac5fb7fb79adc6dd498b","size":14}]},
{"id":"com.example.c1","provides":["2082b5e0-7a64-478a-b1b2-e3404fab6dad"],"requires":[{"tag":"firmware","compare":"ge","version":"1.0.0"}],"releases":[{"version":"1.1.0","sha256":"9770ab3285028befb05af65f2ad3bd2d36afb87626032bc8a9ac195219be71d7","size":14}]}],
"boards":[{"port":"usb1","physical":"usb-1","plugin":"flash","instance-ids":["2082b5e0-7a64-478a-b1b2-e3404fab6dad"],"flags":["updatable"],"version-format":"triplet","image":"EMU1 01000000\n"}],
"clients":[{}],"boots":[{"time":1000}]}"#;

/// A source of a document, which gives 100 bytes at a time.
fn source_of(alloc: Global, document: &str) -> Result<MemorySource, Fail> {
    let bytes = document.as_bytes().to_vec(alloc)?;
    Ok(MemorySource::new(bytes, 100, Vec::new(alloc)))
}

/// The plugin of the board.
fn plugins(alloc: Global) -> Result<Vec<Box<dyn Plugin>>, Fail>
    ensures { IfOk result (λ plugins. length plugins.items ≡ 1) }
{
    let mut plugins: Vec<Box<dyn Plugin>> = Vec::new(alloc);
    plugins.push(Box::new(alloc, Flash::new(alloc)?)?)?;
    Ok(plugins)
}

/// The campaign of a document, with the plugin of its board.
pub(crate) fn campaign_of(alloc: Global, document: &str) -> Result<Campaign, Fail>
    ensures { IfOk result CanBegin }
{
    let mut source = source_of(alloc, document)?;
    let plugins = plugins(alloc)?;
    let ready = open_campaign(alloc, &mut source, ClientLimit::Any, plugins)?;
    let Ready { campaign, .. } = ready;
    Ok(campaign)
}
