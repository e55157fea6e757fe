//! Identifiers as fwupd 2.0.20 answers them.
use guid_ids::*;
use std::test::Fail;

/// GUIDs of instance IDs: the GUID, a space, and the text.
const GUIDS: [&str; 33] = [
    "5b2aa070-83aa-5fb3-850e-dbd1e9e9ff00 8.8.8.8",
    "8fd7e3f2-1706-5182-9072-54dc7d52609a urn:uuid:2082b5e0-7a64-478a-b1b2-e3404fab6dad",
    "e7c9d303-cf30-56c7-9ef9-947a02441ad6 --help",
    "68783417-9687-59c1-83f2-851c4c9ccf9d 2082b5e07a64478ab1b2e3404fab6dad",
    "a112377b-8258-5ef7-b5b0-d2540bc03abb xxxxxxxxxxxxxxxxxxxxxxxxxxxxxxxxxxxxxxxxxxxxxxx",
    "bb58407e-acde-5ecf-b814-c7d138f77c96 lvfs",
    "e76306e3-fe13-59bf-befe-f0c9611082a3 3a49404014b67758fd430a9d09ba0807820b5c47",
    "868473c1-b321-5166-a6b8-502e2b3822e2  x",
    "f8cedbe4-72a8-53c3-922d-4cc8730f4c2d {}",
    "e1409b09-50cf-5aef-8ad8-760b9022f88d THNSN5512GPU7 TOSHIBA",
    "c66152ae-dabf-5fd9-bb87-023aae6af950 NVME\\VEN_1179&DEV_0115&SUBSYS_17AA2247",
    "c917ca2c-8395-5e00-8f28-a898d41a4b8d xxxxxxxxxxxxxxxxxxxxxxxxxxxxxxxxxxxxxxxxxxxxxxxxxxxxxxxxxxxxxxxxxxxxxxxxxxxxxxxxxxxxxxxxxxxxxxxxxxxxxxxx",
    "4f648434-312d-5c1c-94f8-3f3038c1a1e3 2082b5e0_7a64_478a_b1b2_e3404fab6dad",
    "4f3f2898-69e3-5a0d-820a-c4e87987dbce a",
    "be00b74e-57ea-5449-819b-0ef46ecee919 '",
    "e5978d1b-e373-5d96-9bf6-c4f58bc05e43 #",
    "69b5a616-6ae8-5c37-8b46-37d527314c4d xxxxxxxxxxxxxxxxxxxxxxxxxxxxxxxxxxxxxxxxxxxxxxxxxxxxxxxxxxxxxxxxxxxxxxxxxxxxxxxxxxxxxxxxxxxxxxxxxxxxxxx",
    "ab182806-032b-5b7b-994f-b0713031d2b6 USB\\CLASS_FE&SUBCLASS_01",
    "e2186e2d-f783-570d-93ff-ee2e86990aff 2082b5e07-a64-478a-b1b2-e3404fab6dad",
    "898352f6-f306-5bac-b6e8-ce470d25057a THUNDERBOLT\\VEN_0109&DEV_0B14",
    "2dd6a720-b5aa-511d-bf73-051bcef2620a PCI\\VEN_8086&DEV_9D03&SUBSYS_17AA2247&REV_21",
    "101ee86a-7bea-59fb-9f89-6b6297ceed3b USB\\VID_273F&PID_1004&REV_0002",
    "6af613b6-569c-5c22-9c37-2ed93f31d3af 0",
    "f1b9151e-183c-58b7-b276-8dafd14a10b6 xxxxxxxxxxxxxxxxxxxxxxxxxxxxxxxxxxxxxxxxxxxxxxxxxxxxxxxx",
    "437d6a4d-d39d-5b12-8609-311da560bd52 USB\\VID_0A5C&PID_6412 ",
    "ddfc8e56-df0d-582e-af12-c7fa171233dc USB\\VID_0A5C",
    "3a332da2-150b-5761-b9ad-6084b75a3c80 []",
    "bd94e0cd-4396-5a70-b087-0d9092009ec0 WAC\\VID_056A&PID_0094",
    "cc34a6c0-aec7-52aa-ace3-cf8054329d4b Integrated Webcam™",
    "59dc6ea6-6dd9-5cf1-a36f-b1a4ec0c5ca0 USB/VID_0A5C&PID_6412",
    "ebfe0af8-3997-5ade-b634-ba92cf69f557 é",
    "2b539495-76e8-5ab9-8067-4d5b1acb2e27 xxxxxxxxxxxxxxxxxxxxxxxxxxxxxxxxxxxxxxxxxxxxxxxxxxxxxxxxxxxxxxxx",
    "4f15f6fb-73c3-5528-bb9f-cd456442f2b8 HIDRAW\\VEN_046D&DEV_B35B",
];

/// A device ID: the physical ID, the logical ID, and the text.
type DeviceRow = (&'static str, Option<&'static str>, &'static str);

const DEVICES: [DeviceRow; 7] = [
    ("usb-1", None, "3a49404014b67758fd430a9d09ba0807820b5c47"),
    (
        "usb-1",
        Some("x"),
        "4495e3968bff9575f8dbcb551b60deed457dc565",
    ),
    (
        "usb-1",
        Some(""),
        "4ae70c086304c1eeec0532fbe64112ce8abeedcd",
    ),
    (
        "DEVNAME=/dev/sda",
        None,
        "73af9a6499872661128425e157f41bd49be7e8c7",
    ),
    (
        "1-1.2",
        Some("rx"),
        "c75a4b499af4dce4a618ffa7bf9953f8aae7d508",
    ),
    ("p1", None, "b78f576611ec06f96af3ca654c22172a5d746c40"),
    ("p256", None, "243bd823464eb0c77c715a036c72ce042ec96bea"),
];

/// Hardware IDs: manufacturer, family, product and stock keeping unit, and the texts of the IDs.
type MachineRow = ([&'static str; 4], &'static [&'static str]);

const MACHINES: [MachineRow; 8] = [
    (
        ["ACME", "Fam", "Prod", "Sku1"],
        &[
            "eeb53d75-0902-50a0-ab25-c6188c14fb45",
            "ceb43305-9592-5325-bdec-50d72f75e5d7",
            "7ed6c5dc-d7f5-5283-980c-3d22f0b1ce07",
            "afa0d25b-d943-5211-b606-9bebc1d3ffc1",
            "30a9ccca-a507-54be-b6fd-5a78627d2ec8",
            "6ff95c9c-ae41-5f59-9d90-3ec1ea66091e",
        ],
    ),
    (
        [
            "LENOVO",
            "ThinkPad T440s",
            "20ARS19C0C",
            "LENOVO_MT_20AR_BU_Think_FM_ThinkPad T440s",
        ],
        &[
            "660ccba8-1b78-5a33-80e6-9fb8354ee873",
            "8dc9b7c5-f5d5-5850-9ab3-bd6f0549d814",
            "da1da9b6-62f5-5f22-8aaa-14db7eeda2a4",
            "0cf8618d-9eff-537c-9f35-46861406eb9c",
            "db73af4c-4612-50f7-b8a7-787cf4871847",
            "6de5d951-d755-576b-bd09-c5cf66b27234",
        ],
    ),
    (
        ["ACME", "", "", ""],
        &["6ff95c9c-ae41-5f59-9d90-3ec1ea66091e"],
    ),
    (
        ["ACME", "Fam", "Prod", ""],
        &[
            "ceb43305-9592-5325-bdec-50d72f75e5d7",
            "afa0d25b-d943-5211-b606-9bebc1d3ffc1",
            "30a9ccca-a507-54be-b6fd-5a78627d2ec8",
            "6ff95c9c-ae41-5f59-9d90-3ec1ea66091e",
        ],
    ),
    (
        ["ACME", "", "Prod", "Sku1"],
        &[
            "7ed6c5dc-d7f5-5283-980c-3d22f0b1ce07",
            "afa0d25b-d943-5211-b606-9bebc1d3ffc1",
            "6ff95c9c-ae41-5f59-9d90-3ec1ea66091e",
        ],
    ),
    (
        ["ACME", "Fam", "", "Sku1"],
        &[
            "7ed6c5dc-d7f5-5283-980c-3d22f0b1ce07",
            "30a9ccca-a507-54be-b6fd-5a78627d2ec8",
            "6ff95c9c-ae41-5f59-9d90-3ec1ea66091e",
        ],
    ),
    (
        ["ACME", "", "", "Sku1"],
        &[
            "7ed6c5dc-d7f5-5283-980c-3d22f0b1ce07",
            "6ff95c9c-ae41-5f59-9d90-3ec1ea66091e",
        ],
    ),
    (["", "Fam", "Prod", "Sku1"], &[]),
];

/// Whether the row's text has the row's GUID.
fn has_its_guid(row: &str) -> bool {
    match row.split_once(' ') {
        Some((want, text)) => guid_of(text.as_bytes()).text().as_slice() == want.as_bytes(),
        None => false,
    }
}

#[test]
fn guids_of_texts(rt: HostRuntime) {
    for row in &GUIDS {
        assert!(rt; has_its_guid(row), "{row}");
    }
}

const OWN_GUID: &str = "2082b5e0-7a64-478a-b1b2-e3404fab6dad";

/// Whether the GUID has that text and is the text's, and has the bytes that it is made of.
fn is_its_own(guid: Guid, text: &[u8]) -> bool {
    guid.text().as_slice() == text
        && guid_of(text) == guid
        && Guid::from_bytes(*guid.bytes()) == guid
}

#[test]
fn a_guid_is_its_own(rt: HostRuntime) -> Result<(), Fail> {
    let guid = Guid::read(OWN_GUID.as_bytes()).ok_or("no GUID")?;
    assert!(rt; is_its_own(guid, OWN_GUID.as_bytes()));
    assert_eq!(rt;
        Guid::read(b"2082B5E0-7a64-478A-B1B2-E3404FAB6DAD"),
        Some(guid)
    );
    Ok(())
}

#[test]
fn the_guid_of_a_name_as_python_gives_it(rt: HostRuntime) {
    let python = b"886313e1-3b8a-5372-9b90-0c9aee199e5d";
    assert_eq!(rt; Some(guid_of(b"python.org")), Guid::read(python));
}

const NO_GUIDS: [&str; 7] = [
    "2082b5e07a64478ab1b2e3404fab6dad",
    "{2082b5e0-7a64-478a-b1b2-e3404fab6dad}",
    "urn:uuid:2082b5e0-7a64-478a-b1b2-e3404fab6dad",
    "2082b5e0-7a64-478a-b1b2-e3404fab6da",
    "2082b5e0-7a64-478a-b1b2_e3404fab6dad",
    "2082b5e0-7a64-478a-b1b2-e3404fab6dag",
    "",
];

#[test]
fn texts_that_are_no_guids(rt: HostRuntime) {
    for text in &NO_GUIDS {
        assert_eq!(rt; Guid::read(text.as_bytes()), None, "{text}");
    }
}

/// Whether the device ID has that text and is read from it, and has the bytes that it is made of.
fn is_read_back(id: DeviceId, text: &[u8]) -> bool {
    id.text().as_slice() == text
        && DeviceId::read(text) == Some(id)
        && DeviceId::from_bytes(*id.bytes()) == id
}

/// Whether the row's device has the row's ID.
fn has_its_id(row: &DeviceRow) -> bool {
    let (physical, logical, want) = *row;
    match logical {
        Some(logical) => is_read_back(
            device_id(physical.as_bytes(), Some(logical.as_bytes())),
            want.as_bytes(),
        ),
        None => is_read_back(device_id(physical.as_bytes(), None), want.as_bytes()),
    }
}

#[test]
fn device_ids_are_hashes(rt: HostRuntime) {
    for row in &DEVICES {
        let want = row.2;
        assert!(rt; has_its_id(row), "{want}");
    }
}

#[test]
fn texts_that_are_no_device_ids(rt: HostRuntime) {
    assert_eq!(rt;
        DeviceId::read(b"3a49404014b67758fd430a9d09ba0807820b5c4"),
        None
    );
    assert_eq!(rt;
        DeviceId::read(b"3a49404014b67758fd430a9d09ba0807820b5c4x"),
        None
    );
}

fn smbios(text: &str) -> Result<SmbiosText, &str> {
    SmbiosText::read(text.as_bytes()).ok_or(text)
}

fn fields_of(texts: &[&'static str; 4]) -> Result<SmbiosFields, Fail> {
    let manufacturer = smbios(texts[0])?;
    let family = smbios(texts[1])?;
    let product = smbios(texts[2])?;
    let sku = smbios(texts[3])?;
    Ok(SmbiosFields {
        manufacturer,
        family,
        product,
        sku,
    })
}

fn have_texts(guids: &[Guid], texts: &[&str]) -> bool {
    guids.len() == texts.len()
        && guids
            .iter()
            .zip(texts)
            .all(|(guid, text)| guid.text().as_slice() == text.as_bytes())
}

/// Whether the row's machine has the row's IDs.
fn has_its_hardware_ids(row: &MachineRow) -> Result<bool, Fail> {
    let fields = fields_of(&row.0)?;
    Ok(have_texts(hardware_ids(&fields).guids(), row.1))
}

#[test]
fn hardware_ids_of_machines(rt: HostRuntime) -> Result<(), Fail> {
    for (number, row) in MACHINES.iter().enumerate() {
        assert!(rt; has_its_hardware_ids(row)?, "machine {number}");
    }
    Ok(())
}

#[test]
fn the_longest_text_of_a_machine(rt: HostRuntime) -> Result<(), Fail> {
    let longest = [b'~'; 255];
    let text = SmbiosText::read(&longest).ok_or("long")?;
    assert_eq!(rt; text.bytes(), longest.as_slice());
    Ok(())
}

#[test]
fn texts_that_no_machine_has(rt: HostRuntime) {
    assert_eq!(rt; SmbiosText::read(&[b'~'; 256]), None);
    assert_eq!(rt; SmbiosText::read(b"ACME\x7f"), None);
    assert_eq!(rt; SmbiosText::read("ACM\u{c9}".as_bytes()), None);
    assert_eq!(rt; SmbiosText::read(b"\t"), None);
}
